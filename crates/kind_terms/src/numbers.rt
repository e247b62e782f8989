//! The values of numbers without variables.
ghost use Rattle.std.specs.Prelude.{◌≡◌, ◌-◌, ◌^◌, map, min, option_map};
ghost use Rattle.tlb_syntax.specs.View.{expr};
ghost use Rattle.kind_terms.specs.Closed.{closed as closed_value, closed_total as total_of, exceeds};

use tlb_syntax::Expr;

/// The value of a number without variables, or the greatest of the type where it is beyond.
#[cycle(closed)]
pub fn closed(e: &Expr) -> Option<u64>
    ensures { result ≡ option_map (min (2 ^ 64 - 1)) (closed_value (expr e.now)) }
{
    match e {
        Expr::Lit(n) => Some(u64::from(*n)),
        Expr::Sum(first, second, more) => {
            let two = closed(first.get())?.saturating_add(closed(second.get())?);
            Some(two.saturating_add(closed_total(more.as_slice())?))
        }
        Expr::Star(left, right) => Some(closed(left.get())?.saturating_mul(closed(right.get())?)),
        _ => None,
    }
}

// The sum of all these.
#[cycle(closed)]
fn closed_total(terms: &[Expr]) -> Option<u64>
    ensures { result ≡ option_map (min (2 ^ 64 - 1)) (total_of (map expr terms.now)) }
{
    let mut total: u64 = 0;
    for term in terms {
        total = total.saturating_add(closed(term)?);
    }
    Some(total)
}

/// Whether a number without variables is greater.
pub fn is_beyond(e: &Expr, most: u32) -> bool
    ensures { result ≡ exceeds most (closed_value (expr e.now)) }
{
    match closed(e) {
        None => false,
        Some(value) => value > u64::from(most),
    }
}

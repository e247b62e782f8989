//! Sums without variables that are too large.
ghost use Rattle.std.specs.Prelude.{◌≡◌, ◌-◌, ◌^◌, map, min, option_map};
ghost use Rattle.nat_solver.specs.Number.{exact_sum};
ghost use Rattle.tlb_syntax.specs.View.{expr};
ghost use Rattle.kind_terms.specs.Closed.{exceeds};
ghost use Rattle.kind_rules.specs.Sums.{is_past_total as is_past_total_by, is_sum_past};

use kind_terms::{GREATEST, closed};
use tlb_syntax::Expr;

fn is_above(total: Option<u64>, most: u32) -> bool
    ensures { result ≡ exceeds most total }
{
    match total {
        None => false,
        Some(value) => value > u64::from(most),
    }
}

// The sum, or the greatest of the type where it is beyond.
fn added(left: Option<u64>, right: Option<u64>) -> Option<u64>
    ensures { result ≡ option_map (min (2 ^ 64 - 1)) (exact_sum left right) }
{
    match left {
        None => None,
        Some(value) => match right {
            None => None,
            Some(more) => Some(value.saturating_add(more)),
        },
    }
}

fn is_past_total(start: Option<u64>, more: &[Expr], most: u32) -> bool
    ensures { result ≡ is_past_total_by most start (map expr more.now) }
{
    let mut total = start;
    for term in more {
        if is_above(total, GREATEST) {
            return true;
        }
        total = added(total, closed(term));
    }
    is_above(total, most)
}

/// Whether the sum is beyond `most`, or that of its first terms, two or more, beyond the greatest number.
pub fn is_sum_beyond(first: &Expr, second: &Expr, more: &[Expr], most: u32) -> bool
    ensures { result ≡ is_sum_past most (expr first.now) (expr second.now) (map expr more.now) }
{
    is_past_total(added(closed(first), closed(second)), more, most)
}

ghost use Rattle.std.specs.Prelude.{◌≡◌, ◌↔◌, ℕ, Some, not};
ghost use Rattle.nat_solver.specs.Number.{OneUnknown, is_empty, sum_of, unknowns};
ghost use Rattle.nat_solver.specs.Plain.{occurrence, joined, occurs, under, unknown_of};
ghost use Rattle.nat_solver.specs.View.{expr, exprs};

use crate::expr::NatExpr;

/// How unknowns occur.
#[derive(Clone, Copy)]
enum Occurrence {
    Never,
    /// One unknown, once, and not under a factor 0.
    Once(u32),
    /// Otherwise.
    Unfit,
}

impl Occurrence {
    fn occurs(self) -> bool
        ensures { result ≡ occurs self }
    {
        !matches!(self, Occurrence::Never)
    }

    fn unknown(self) -> Option<u32>
        ensures { result ≡ unknown_of self }
    {
        match self {
            Occurrence::Once(v) => Some(v),
            Occurrence::Never | Occurrence::Unfit => None,
        }
    }
}

/// The one unknown of an equation, if exactly one unknown occurs in both sides together and it
/// doesn't stand under a factor 0.
pub fn sought(left: &NatExpr, right: &NatExpr) -> Option<u32>
    ensures { (v : ℕ) → (result ≡ Some v) ↔ OneUnknown (expr left.now) (expr right.now) v }
{
    join(find_unknown(left), find_unknown(right)).unknown()
}

/// Whether an unknown stands in `e`.
pub(crate) fn has_unknown(e: &NatExpr) -> bool
    ensures { result ≡ not (is_empty (unknowns (expr e.now))) }
{
    find_unknown(e).occurs()
}

#[cycle(find)]
fn find_unknown(e: &NatExpr) -> Occurrence
    ensures { result ≡ occurrence (expr e.now) }
{
    match e {
        NatExpr::Lit(_) | NatExpr::Var(_) => Occurrence::Never,
        NatExpr::Sought(v) => Occurrence::Once(*v),
        NatExpr::Sum(terms) => find_in_sum(terms.as_slice()),
        NatExpr::Times(k, a) => multiplied(*k, find_unknown(a.get())),
    }
}

#[tactic(auto, using(crate::proofs::Sums::occurrence_whole))]
#[cycle(find)]
fn find_in_sum(terms: &[NatExpr]) -> Occurrence
    ensures { result ≡ occurrence (sum_of (exprs terms.now)) }
{
    let mut found = Occurrence::Never;
    for term in terms {
        found = join(found, find_unknown(term));
    }
    found
}

fn join(a: Occurrence, b: Occurrence) -> Occurrence
    ensures { result ≡ joined a b }
{
    match (a, b) {
        (Occurrence::Never, other) | (other, Occurrence::Never) => other,
        _ => Occurrence::Unfit,
    }
}

fn multiplied(k: u32, found: Occurrence) -> Occurrence
    ensures { result ≡ under k found }
{
    match found {
        Occurrence::Once(_) if k == 0 => Occurrence::Unfit,
        _ => found,
    }
}

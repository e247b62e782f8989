ghost use Rattle.std.specs.Prelude.{◌≡◌, ◌↔◌, ◌++◌, ◌∷◌, [], ◌≤◌, ◌-◌, ℕ, Ok, Err, Some, None};
ghost use Rattle.std.specs.Option.{SomeIff};
ghost use Rattle.nat_solver.specs.Number.{cancelled, unknowns, value, put, parts, first_lacking, Exceeds, Unset, OneUnknown, Solves, number_or_0, solution};
ghost use Rattle.nat_solver.specs.Plain.{AllValued, cancelled_in, holder, known_total, unknowns_in};
ghost use Rattle.nat_solver.specs.View.{expr, exprs};

use crate::evaluate::{NatError, known};
use crate::expr::NatExpr;
use crate::numbers::Env;
use crate::unknown::has_unknown;

/// The number that solves an equation for its one unknown.
///
/// The largest parts without the unknown are evaluated first, from left to right.
pub fn solve(left: &NatExpr, right: &NatExpr, env: &Env) -> Result<u32, NatError>
    requires { (v : ℕ) × OneUnknown (expr left.now) (expr right.now) v }
    ensures answer { result ≡ solution (expr left.now) (expr right.now) env.now }
    ensures solved { (x : ℕ) → (result ≡ Ok x) ↔ Solves (expr left.now) (expr right.now) env.now x }
    ensures overflow { (result ≡ Err NatError.Overflow) ↔ Exceeds (first_lacking (parts (expr left.now) ++ parts (expr right.now)) env.now) env.now }
    ensures unknown { (v : ℕ) → (result ≡ Err (NatError.Unknown v)) ↔ Unset (first_lacking (parts (expr left.now) ++ parts (expr right.now)) env.now) env.now v }
    ensures unsolved { (result ≡ Err NatError.NoSolution) ↔ ((first_lacking (parts (expr left.now) ++ parts (expr right.now)) env.now ≡ None) × ((x : ℕ) → Solves (expr left.now) (expr right.now) env.now x → ⊥)) }
{
    let left_number = known(left, env)?;
    let right_number = known(right, env)?;
    let found = match (left_number, right_number) {
        (Some(n), _) => number_for(right, n, env),
        (None, Some(n)) => number_for(left, n, env),
        (None, None) => unreachable!(),
    };
    found.ok_or(NatError::NoSolution)
}

/// The number for the unknown with which `e` has the value `n`.
#[cycle(undo)]
fn number_for(e: &NatExpr, n: u32, env: &Env) -> Option<u32>
    requires one { (v : ℕ) × (unknowns (expr e.now) ≡ v ∷ []) }
    requires counts { cancelled (expr e.now) ≡ [] }
    requires valued { first_lacking (parts (expr e.now)) env.now ≡ None }
    ensures { (x : ℕ) → (result ≡ Some x) ↔ (value (put x (expr e.now)) env.now ≡ Some n) }
{
    match e {
        NatExpr::Lit(_) | NatExpr::Var(_) => unreachable!(),
        NatExpr::Sought(_) => Some(n),
        NatExpr::Sum(terms) => {
            let rest = less_known(terms.as_slice(), n, env)?;
            number_for_term(terms.as_slice(), rest, env)
        }
        NatExpr::Times(k, a) => {
            if n % *k == 0 {
                number_for(a.get(), n / *k, env)
            } else {
                None
            }
        }
    }
}

/// The number for the unknown with which the term that holds it has the value `n`.
#[cycle(undo)]
fn number_for_term(terms: &[NatExpr], n: u32, env: &Env) -> Option<u32>
    requires one { (v : ℕ) × (unknowns_in (exprs terms.now) ≡ v ∷ []) }
    requires counts { cancelled_in (exprs terms.now) ≡ [] }
    requires valued { AllValued (exprs terms.now) env.now }
    ensures { (x : ℕ) → (result ≡ Some x) ↔ (value (put x (holder (exprs terms.now))) env.now ≡ Some n) }
{
    for term in terms {
        if has_unknown(term) {
            return number_for(term, n, env);
        }
    }
    unreachable!()
}

/// What is left of `n` without the terms that have no unknown.
#[tactic(auto, using(crate::proofs::Solving::valued_here, crate::proofs::Solving::total_here))]
fn less_known(terms: &[NatExpr], n: u32, env: &Env) -> Option<u32>
    requires { AllValued (exprs terms.now) env.now }
    ensures { SomeIff result (known_total (exprs terms.now) env.now ≤ n) (n - known_total (exprs terms.now) env.now) }
{
    let mut rest = n;
    for term in terms {
        rest = rest.checked_sub(known_or_zero(term, env))?;
    }
    Some(rest)
}

/// The value of an expression, or 0 where an unknown stands in it.
#[tactic(auto, using(crate::proofs::Solving::part_number, crate::proofs::Solving::part_unknown))]
fn known_or_zero(e: &NatExpr, env: &Env) -> u32
    requires { first_lacking (parts (expr e.now)) env.now ≡ None }
    ensures { result ≡ number_or_0 (value (expr e.now) env.now) }
{
    match known(e, env) {
        Ok(Some(n)) => n,
        Ok(None) => 0,
        Err(_) => unreachable!(),
    }
}

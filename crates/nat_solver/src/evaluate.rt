ghost use Rattle.std.specs.Prelude.{◌≡◌, ◌≢◌, ◌↔◌, ℕ, Ok, Err, Some, None, []};
ghost use Rattle.nat_solver.specs.Number.{unknowns, value, answer, parts, first_lacking, Exceeds, Unset, sum_of};
ghost use Rattle.nat_solver.specs.Plain.{known_number, added, multiplied};
ghost use Rattle.nat_solver.specs.View.{expr, exprs};

use crate::expr::NatExpr;
use crate::numbers::Env;

/// Why an expression has no value, or an equation no solution.
#[derive(Clone, Copy, Debug, PartialEq, Eq)]
pub enum NatError {
    /// A part exceeds 2^32 − 1.
    Overflow,
    /// The variable of this number is not set.
    Unknown(u32),
    /// No number solves the equation.
    NoSolution,
}

/// The value of an expression.
pub fn eval(e: &NatExpr, env: &Env) -> Result<u32, NatError>
    requires { unknowns (expr e.now) ≡ [] }
    ensures answer { result ≡ answer (expr e.now) env.now }
    ensures value { (n : ℕ) → (result ≡ Ok n) ↔ (value (expr e.now) env.now ≡ Some n) }
    ensures overflow { (result ≡ Err NatError.Overflow) ↔ Exceeds (first_lacking (parts (expr e.now)) env.now) env.now }
    ensures unknown { (v : ℕ) → (result ≡ Err (NatError.Unknown v)) ↔ Unset (first_lacking (parts (expr e.now)) env.now) env.now v }
    ensures solution { result ≢ Err NatError.NoSolution }
{
    match known(e, env)? {
        Some(n) => Ok(n),
        None => unreachable!(),
    }
}

/// The value of an expression, or `None` where an unknown stands in it; of its parts without an
/// unknown the first without a value is refused.
#[cycle(known)]
pub(crate) fn known(e: &NatExpr, env: &Env) -> Result<Option<u32>, NatError>
    ensures { result ≡ known_number (expr e.now) env.now }
{
    match e {
        NatExpr::Lit(n) => Ok(Some(*n)),
        NatExpr::Var(v) => match env.get(*v) {
            Some(n) => Ok(Some(n)),
            None => Err(NatError::Unknown(*v)),
        },
        NatExpr::Sought(_) => Ok(None),
        NatExpr::Sum(terms) => known_sum(terms.as_slice(), env),
        NatExpr::Times(k, a) => {
            let n = known(a.get(), env)?;
            multiply(*k, n)
        }
    }
}

#[tactic(auto, using(crate::proofs::Sums::known_whole, crate::proofs::Sums::known_refused))]
#[cycle(known)]
fn known_sum(terms: &[NatExpr], env: &Env) -> Result<Option<u32>, NatError>
    ensures { result ≡ known_number (sum_of (exprs terms.now)) env.now }
{
    let mut sum = Some(0);
    for term in terms {
        let n = known(term, env)?;
        sum = add(sum, n)?;
    }
    Ok(sum)
}

fn add(m: Option<u32>, n: Option<u32>) -> Result<Option<u32>, NatError>
    ensures { result ≡ added m n }
{
    match (m, n) {
        (Some(m), Some(n)) => match m.checked_add(n) {
            Some(sum) => Ok(Some(sum)),
            None => Err(NatError::Overflow),
        },
        _ => Ok(None),
    }
}

fn multiply(k: u32, n: Option<u32>) -> Result<Option<u32>, NatError>
    ensures { result ≡ multiplied k n }
{
    match n {
        Some(n) => match k.checked_mul(n) {
            Some(product) => Ok(Some(product)),
            None => Err(NatError::Overflow),
        },
        None => Ok(None),
    }
}

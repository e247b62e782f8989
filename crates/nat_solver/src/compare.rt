ghost use Rattle.std.specs.Prelude.{◌≡◌, ◌≢◌, ◌↔◌, ◌++◌, ℕ, Err, [], IfOk, IsTrue};
ghost use Rattle.nat_solver.specs.Number.{unknowns, parts, first_lacking, Exceeds, Unset, Compares, Compared, comparison, holding, answer};
ghost use Rattle.nat_solver.specs.View.{expr};

use crate::evaluate::{NatError, eval};
use crate::expr::NatExpr;
use crate::numbers::Env;

/// A comparison of two numbers.
#[derive(Clone, Copy, Debug, PartialEq, Eq)]
pub enum Op {
    Eq,
    Lt,
    Le,
    Gt,
    Ge,
}

/// Whether two expressions compare so; the left one is evaluated first.
pub fn holds(left: &NatExpr, op: Op, right: &NatExpr, env: &Env) -> Result<bool, NatError>
    requires left_known { unknowns (expr left.now) ≡ [] }
    requires right_known { unknowns (expr right.now) ≡ [] }
    ensures answer { result ≡ holding op (answer (expr left.now) env.now) (answer (expr right.now) env.now) }
    ensures compared { IfOk result (Compared op (expr left.now) (expr right.now) env.now) }
    ensures overflow { (result ≡ Err NatError.Overflow) ↔ Exceeds (first_lacking (parts (expr left.now) ++ parts (expr right.now)) env.now) env.now }
    ensures unknown { (v : ℕ) → (result ≡ Err (NatError.Unknown v)) ↔ Unset (first_lacking (parts (expr left.now) ++ parts (expr right.now)) env.now) env.now v }
    ensures solution { result ≢ Err NatError.NoSolution }
{
    let m = eval(left, env)?;
    let n = eval(right, env)?;
    Ok(compares(op, m, n))
}

fn compares(op: Op, m: u32, n: u32) -> bool
    ensures is { result ≡ comparison op m n }
    ensures holds { IsTrue result ↔ Compares op m n }
{
    match op {
        Op::Eq => m == n,
        Op::Lt => m < n,
        Op::Le => m <= n,
        Op::Gt => m > n,
        Op::Ge => m >= n,
    }
}

//! The number expressions of a schema: their values, and equations between them solved exactly.
#![tactic(auto)]

mod compare;
mod equation;
mod evaluate;
mod expr;
pub mod laws;
mod numbers;
mod pattern;
mod unknown;

pub use compare::{Op, holds};
pub use equation::solve;
pub use evaluate::{NatError, eval};
pub use expr::NatExpr;
pub use numbers::Env;
pub use pattern::{Pattern, pattern_fit, patterns_exclude};
pub use unknown::sought;

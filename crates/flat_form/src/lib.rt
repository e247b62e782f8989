//! The flat form of a plan: lists of operations, types, arguments, expressions and names, and the core forms that their
//! numbers stand for.
#![tactic(auto)]

mod adding;
mod lists;
mod parts;

pub use lists::{
    ConstructorPlan, Entry, Flat, NO_BIT, NO_SLOT, PlanArg, PlanInput, PlanOp, TypeNode,
};
pub use parts::Sized;

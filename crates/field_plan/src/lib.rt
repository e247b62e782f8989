//! The plan of an accepted schema: its core forms as flat lists, which a reader and a builder go through.
#![tactic(auto)]

mod choosing;
mod names;
mod place;
mod plan;
mod word;

pub use closed_type::{ClosedArg, ClosedType};
pub use field_path::FieldPath;
pub use flat_form::{Entry, NO_BIT, NO_SLOT, PlanArg, PlanInput, PlanOp, TypeNode};
pub use place::{Holder, Place};
pub use plan::{Plan, compile};
pub use plan_closing::CloseError;
pub use spelling::Cause;
pub use type_word::TypeError;
pub use word::resolve;

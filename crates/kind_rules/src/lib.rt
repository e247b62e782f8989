//! The rules on kinds at one expression, each as a test: what is expected where it stands, and what it is there.
#![tactic(auto)]

mod expected;
pub mod laws;
mod names;
mod rules;
mod sums;

pub use expected::{Expected, ExpectedKind, TypePosition};
pub use names::add_names_inside;
pub use rules::{
    Named, arg_count, is_given, is_mismatch, is_number, is_other_out, is_output_under_ref,
    is_too_wide, is_type_expected, is_type_variable, is_unknown_name, is_unknown_type,
    takes_others, used,
};
pub use sums::is_sum_beyond;

//! The leaves of a builder that goes by a flat plan: a content that grows, numbers, bits, hidden parts, dictionaries, and
//! the fields of a record.
#![tactic(auto)]

mod dicts;
mod growing;
mod halves;
mod numbers;
mod outputs;
mod planted;
mod ranges;
mod records;

pub use dicts::{fits_edge, fits_root, plant_here, plant_root, with_keys};
pub use growing::{Growing, grew, put_bits, put_hidden, put_number, put_ref, put_rest};
pub use numbers::{make_number, make_string};
pub use outputs::{Outputs, bind_outputs};
pub use ranges::in_range;
pub use records::{begin, has_fields, in_tag};

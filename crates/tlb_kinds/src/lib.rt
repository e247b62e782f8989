//! Whether a TL-B schema is in order: its names, parameters, numbers, outputs, records and widths, and its guard; and
//! if not, its first refusal. The language is that of the TON documentation on TL-B; where that leaves a point open,
//! the definitions of this crate and of those below it fix it.
#![tactic(auto)]

mod check;
mod error;
pub mod laws;
mod places;
mod spot;

pub use check::{Kinded, kind_check};
pub use error::KindError;
pub use field_path::{FieldPath, Part};
pub use places::spot as spot_of;
pub use spot::Spot;

//! Laws of reading: functions of no parameters, whose contracts speak of the definitions alone.

pub use declared_maps::laws::{maps_are_declared, maps_have_records};

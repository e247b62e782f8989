//! Places in a schema.
use bit_slice::Name;
use field_path::FieldPath;

/// An item of a constructor.
#[derive(Debug, Drop)]
pub struct Spot {
    pub type_name: Name,
    /// The constructor's name, or `_i` for a unnamed one, where i is its number.
    pub constructor: Name,
    /// The constructor's place among those of its type, from 1.
    pub number: u32,
    pub item: FieldPath,
}

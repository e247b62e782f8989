//! Places, as a reading or a building reports them.
use bit_slice::Name;
use field_path::FieldPath;
use spelling::Cause;

/// The root, or a constructor by its type and its number in it, from 1.
#[derive(Debug, Drop)]
pub enum Holder {
    Root,
    Constructor(Name, u32),
}

/// The innermost constructor, the field in it, and the cause.
#[derive(Debug, Drop)]
pub struct Place {
    pub holder: Holder,
    pub field: FieldPath,
    pub cause: Cause,
}

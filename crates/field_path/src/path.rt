use crate::part::Part;
use sqlite_items::Items;

/// The path to an item of a constructor: fields of inner records follow the fields that they stand in.
#[derive(Debug, Drop)]
pub struct FieldPath {
    pub parts: Items<Part>,
}

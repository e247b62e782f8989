//! Paths.
use bit_slice::{BitString, Name};
use sqlite_items::Items;

/// One step from a value to a value inside it: a record's field, a list's item from 0, or a map's key.
#[derive(Drop)]
pub enum Step {
    Field(Name),
    Item(u32),
    Key(BitString),
}

/// The steps from a value to one inside it.
#[derive(Drop)]
pub struct Path {
    pub steps: Items<Step>,
}

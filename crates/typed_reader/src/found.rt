//! What a part of a reading gives.
use bit_slice::Name;
use cell_nodes::CellSlice;
use sqlite_items::Items;
use typed_value::Value;

/// The outputs of a value, most often none or its own number.
#[derive(Drop)]
pub enum Outputs {
    Empty,
    One(u32),
    Several(Items<u32>),
}

/// A value with its outputs, and what is left.
#[derive(Drop)]
pub struct Found<'a> {
    pub value: Value,
    pub outputs: Outputs,
    pub rest: CellSlice<'a>,
}

/// What one operation gives: a field, the condition of the next operation, and what is left.
#[derive(Drop)]
pub struct Step<'a> {
    pub field: Option<(Name, Value)>,
    pub condition: Option<(u32, u32)>,
    pub rest: CellSlice<'a>,
}

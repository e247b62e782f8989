//! Values.
use bit_slice::{BitString, Name};
use cell_nodes::{Cell, Hidden};
use sqlite_items::{Boxed, Items};

/// A number by its sign and its size. The 0 that a type spells is not negative.
#[derive(Clone, Copy, Debug, PartialEq, Eq)]
pub struct Number {
    pub negative: bool,
    pub size: u128,
}

/// A value of a TL-B type.
#[cycle(value)]
#[derive(Drop)]
pub enum Value {
    Number(Number),
    Bits(BitString),
    Record(Record),
    /// A field whose condition doesn't hold.
    Absent,
    List(Items<Value>),
    /// A reference to a cell that holds the value.
    Ref(Boxed<Value>),
    /// A hidden part.
    Unknown(Hidden),
    Map(Dict),
    /// A cell as it is.
    Raw(Cell),
    Rest(RestPart),
}

/// The fields of a constructor, each under the name that it is shown by, and the constructor's own name. A record
/// inside a record has none.
#[cycle(value)]
#[derive(Drop)]
pub struct Record {
    pub name: Option<Name>,
    pub fields: Items<(Name, Value)>,
}

/// The values of a dictionary by key, and its hidden parts by the prefix that their keys begin with, each in the
/// order of bits.
#[cycle(value)]
#[derive(Drop)]
pub struct Dict {
    pub pairs: Items<(BitString, Value)>,
    pub unknown: Items<(BitString, Hidden)>,
}

/// All that is left of a cell.
#[derive(Drop)]
pub struct RestPart {
    pub bits: BitString,
    pub refs: Items<Cell>,
}

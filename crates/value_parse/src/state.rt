//! Where a text stands, with the values that are begun.
use bit_slice::{BitString, Name};
use cell_nodes::Cell;
use sqlite_items::Items;
use typed_value::{Dict, Record, RestPart, Value};

/// A value that is begun, and inside which another begins next or stands.
#[derive(Drop)]
pub(crate) enum Frame {
    /// A record, and the name of the field whose value comes.
    Field(Record, Name),
    /// A list, by its whole items.
    Item(Items<Value>),
    Reference,
    /// A map, and the key whose value comes.
    Pair(Dict, BitString),
}

/// A cell that is begun.
#[derive(Drop)]
pub(crate) struct OpenCell {
    pub(crate) exotic: bool,
    /// The place of its `(`.
    pub(crate) place: u64,
    pub(crate) bits: BitString,
    pub(crate) refs: Items<Cell>,
}

/// Where the text stands in a cell.
#[derive(Drop)]
pub(crate) enum CellSpot {
    /// After a `!`.
    ParenDue,
    /// After a `(`: whether the cell is exotic, and the place.
    BitsDue(bool, u64),
    /// After the bits or a reference.
    AfterPart(OpenCell),
    /// After a comma.
    ChildDue(OpenCell),
}

/// Where the text stands within the frames.
#[derive(Drop)]
pub(crate) enum Spot {
    /// A value is due.
    Due,
    /// After a `[`.
    ItemOrEnd,
    AfterItem(Items<Value>),
    /// After a record's name.
    Named(Name),
    /// After a record's `{`.
    FieldOrEnd(Option<Name>),
    /// After a comma in a record.
    FieldDue(Record),
    /// After a field's name.
    Labelled(Record, Name),
    AfterField(Record),
    /// After a `<`.
    EntryOrEnd,
    /// After a comma in a map, and the last key.
    EntryDue(Dict, BitString),
    /// After a key.
    Keyed(Dict, BitString),
    /// After an entry, and its key.
    AfterEntry(Dict, BitString),
    /// After a `%`.
    RestParen,
    /// After its `(`.
    RestBits,
    /// After its bits or a reference.
    AfterRest(RestPart),
    /// After a comma in it.
    RestChild(RestPart),
    /// In a cell: the `%` around it, if there is one, and the cells around it.
    InCell(Option<RestPart>, Vec<OpenCell>, CellSpot),
    /// After the whole value.
    Done(Value),
}

/// What is open: the spot, and the values around it, the innermost last.
#[derive(Drop)]
pub(crate) struct Open {
    pub(crate) spot: Spot,
    pub(crate) below: Vec<Frame>,
}

/// What is open, and how many values and cells have begun.
#[derive(Drop)]
pub(crate) struct State {
    pub(crate) begun: Open,
    pub(crate) values: u32,
    pub(crate) cells: u32,
}

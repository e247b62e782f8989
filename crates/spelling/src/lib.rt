//! What a value of a TL-B type is spelled by, how a cell is read, and where a reading stops: definitions alone.
#![tactic(auto)]

/// Why a reading or a building stops at a place.
///
/// A reading has all but the last five. Those that hold of one item are judged in this order by the reader; the
/// builder goes through the value, and judges `Shape` right after `Width`.
#[derive(Clone, Copy, Debug, PartialEq, Eq)]
pub enum Cause {
    /// A value would stand at level 2,305.
    Nesting,
    /// A value would be the 1,048,577th part.
    Bulk,
    /// A number exceeds 2^32 − 1.
    Overflow,
    /// A closed type would have more than 4,096 nodes.
    BigType,
    /// A width is none of the basic type's, or a key is wider than 1023 bits.
    Width,
    /// No constructor can be entered.
    NoConstructor,
    /// Bits are missing.
    ShortBits,
    /// A reference is missing.
    ShortRefs,
    /// A number is not in its type's range.
    OutOfRange,
    /// A constraint doesn't hold.
    Constraint,
    /// No number solves an equation.
    NoSolution,
    /// An item of a repetition took nothing.
    Idle,
    /// A cell is exotic where an ordinary one is due.
    Exotic,
    /// A label of a dictionary is too long, or in another form than the required one.
    Label,
    /// Bits or references are left in a cell.
    Leftover,
    /// The value has another form than the type.
    Shape,
    /// Something would follow the rest of a cell.
    AfterRest,
    /// A cell would have more than 1023 bits or four references.
    Full,
    /// A cell would be deeper than 1,024.
    TooDeep,
    /// The tree would have more than 262,144 cells.
    Sprawl,
}

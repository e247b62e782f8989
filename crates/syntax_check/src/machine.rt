//! The states in which a text's lexemes are gone through. A count says how many more may come; `None`: any number.

/// Where a sum stands.
#[derive(Clone, Copy)]
pub enum Side {
    Paren,
    /// On the left of a comparison, with the items that may follow.
    Left(Option<u32>),
    /// On the right of it.
    Right(Option<u32>),
    Word,
}

/// Where a term stands.
#[derive(Clone, Copy)]
pub enum Spot {
    /// An operand of a sum, after `*` or not.
    Operand(Side, bool),
    /// An argument of a name that is such an operand.
    Argument(Side, bool),
    /// The argument of a `##`, `#<` or `#<=` that is such an operand.
    Width(Side, bool),
    /// The first term of a field, with the items that may follow.
    Field(Option<u32>),
    /// The type after a `?`.
    Guarded(Option<u32>),
    /// A parameter of a result, with the parameters that may follow.
    Param(Option<u32>),
}

/// What was read last, or what is expected next. The number is that of the items or parameters that may follow.
#[derive(Clone, Copy)]
pub enum ParserState {
    /// Between declarations.
    Start,
    /// After the `!` of a declaration.
    Marked,
    /// After a declaration's name.
    Headed,
    /// In a record, between items.
    Items(Option<u32>),
    /// After the `{` of an item.
    Brace(Option<u32>),
    /// After `{` and a name.
    BraceName(Option<u32>),
    /// After `{`, a name and `:`.
    Kind(Option<u32>),
    /// After the kind of an implicit field.
    KindEnd(Option<u32>),
    /// After a name that begins an item.
    ItemName(Option<u32>),
    /// After the `_` that begins an item.
    ItemBlank(Option<u32>),
    /// A term is expected; the number is that of the levels that may be opened in it, after prefixes.
    Term(Spot, Option<u32>),
    /// An operand of a sum is expected, after `*` or not.
    Apply(Side, bool),
    /// After a name, and maybe arguments.
    Applied(Side, bool),
    /// After a whole operand.
    Operated(Side, bool),
    /// After the first term of a field.
    Typed(Option<u32>),
    /// After the `.` of a field.
    Bit(Option<u32>),
    /// After the number of a tested bit.
    BitEnd(Option<u32>),
    /// After the `=` of a declaration.
    Result,
    /// After the type's name.
    Params(Option<u32>),
}

/// An open bracket, with the term that it begins and the levels that may be opened beside it.
#[derive(Clone, Copy)]
pub enum Frame {
    Paren(Spot, Option<u32>),
    Record(Spot, Option<u32>),
}

/// Why a lexeme is refused.
#[derive(Clone, Copy, Debug, PartialEq, Eq)]
pub enum Cause {
    /// Nothing goes on with it.
    Syntax,
    /// It opens the 65th level.
    DeepType,
    /// It begins the 4,097th declaration, or the 257th of one type.
    TooManyConstructors,
    /// It begins the 256th item of a record.
    TooManyFields,
    /// It begins the ninth parameter.
    TooManyParams,
}

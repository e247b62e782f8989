//! The states in which lexemes are gone through, with the trees that are begun.
use sqlite_items::{Boxed, Items};
use tlb_syntax::{Constructor, Expr, FieldType, Item, Name, Op, ParamKind, Tag};

/// The whole terms of a sum that is begun.
#[derive(Drop)]
pub(crate) enum Terms {
    Zero,
    One(Boxed<Expr>),
    Several(Boxed<Expr>, Boxed<Expr>, Items<Expr>),
}

/// A sum that is begun, before an operand.
#[derive(Drop)]
pub(crate) struct OpenSum {
    pub(crate) terms: Terms,
    /// The factor before a `*`.
    pub(crate) factor: Option<Boxed<Expr>>,
}

/// `##`, `#<` or `#<=`.
#[derive(Clone, Copy)]
pub(crate) enum Width {
    Bits,
    Below,
    UpTo,
}

/// What is asked of a field's type.
#[derive(Drop)]
pub(crate) enum Guard {
    /// `condition?`
    Number(Expr),
    /// `number.bit?`
    Bit(Expr, u32),
}

/// What stands before the items of a declaration.
#[derive(Drop)]
pub(crate) struct Heading {
    /// Whether a `!` stands before the name.
    pub(crate) exotic: bool,
    pub(crate) name: Option<Name>,
    pub(crate) tag: Tag,
}

/// What was read last, or what is expected next. The items are those before it in the record.
#[derive(Drop)]
pub(crate) enum ParserState {
    /// Between declarations.
    Start,
    /// After the `!` of a declaration.
    Marked,
    /// In a record, between items.
    Items(Items<Item>),
    /// After a name that begins an item.
    ItemName(Items<Item>, Name),
    /// After the `_` that begins an item.
    ItemBlank(Items<Item>),
    /// After the first term of a field.
    Typed(Items<Item>, Option<Name>, Expr),
    /// After the `.` of a field.
    Bit(Items<Item>, Option<Name>, Expr),
    /// After the number of a tested bit.
    BitEnd(Items<Item>, Option<Name>, Expr, u32),
    /// After `{`, a name and `:`.
    Kind(Items<Item>, Name),
    /// After the kind of an implicit field.
    KindEnd(Items<Item>, Name, ParamKind),
    /// A term is expected.
    Term,
    /// An operand of the sum is expected.
    Apply(OpenSum),
    /// After a name and maybe arguments, an operand of the sum.
    Applied(OpenSum, Name, Items<Expr>),
    /// After a whole operand of the sum.
    Operated(OpenSum, Expr),
    /// After the `=` of a declaration.
    Result(Heading, Items<Item>),
    /// After the type's name.
    Params(Constructor),
}

/// What a term, a sum or a record that is begun is part of.
#[derive(Drop)]
pub(crate) enum Frame {
    /// The operand of a `~`.
    Out,
    /// The operand of a `^`.
    Ref,
    /// An operand of the sum.
    Operand(OpenSum),
    /// A further argument of a name that is an operand of the sum.
    Argument(OpenSum, Name, Items<Expr>),
    /// The argument of a `##`, `#<` or `#<=` that is an operand of the sum.
    Width(OpenSum, Width),
    /// The first term of a field, after these items.
    Field(Items<Item>, Option<Name>),
    /// The type after a `?`.
    Guarded(Items<Item>, Option<Name>, Guard),
    /// A further parameter of the constructor's result.
    Param(Constructor),
    /// A sum in parentheses, which is a term.
    Paren,
    /// A record in brackets, which is a term.
    Record,
    /// The left of a comparison.
    Left(Items<Item>),
    /// The right of a comparison.
    Right(Items<Item>, Expr, Op),
    /// The record of a declaration.
    Declaration(Heading),
}

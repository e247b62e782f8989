//! The syntax tree.
use bit_slice::{BitString, Name};
use nat_solver::Op;
use sqlite_items::{Boxed, Items};

/// The kind of an implicit field: `#` or `Type`.
#[derive(Clone, Copy, Debug, PartialEq, Eq)]
pub enum ParamKind {
    Nat,
    Ty,
}

/// An expression for a type or a number. Parentheses leave no trace in it.
#[cycle(tree)]
#[derive(Drop)]
pub enum Expr {
    Lit(u32),
    /// A name and its arguments.
    Named(Name, Items<Expr>),
    /// `#`
    Nat32,
    /// `##` and its argument.
    Bits(Items<Expr>),
    /// `#<` and its argument.
    Below(Items<Expr>),
    /// `#<=` and its argument.
    UpTo(Items<Expr>),
    /// The first term, the second and those after them: they stand for their sum nested to the left.
    Sum(Boxed<Expr>, Boxed<Expr>, Items<Expr>),
    Star(Boxed<Expr>, Boxed<Expr>),
    /// `~` and its operand.
    Out(Boxed<Expr>),
    /// `^` and its operand.
    Ref(Boxed<Expr>),
    /// A record in brackets.
    Group(Items<Item>),
}

/// The type of an explicit field.
#[cycle(tree)]
#[derive(Drop)]
pub enum FieldType {
    Plain(Expr),
    /// `condition?type`
    If(Expr, Expr),
    /// `number.bit?type`, where the bit is at most 31.
    IfBit(Expr, u32, Expr),
}

/// An item of a record.
#[cycle(tree)]
#[derive(Drop)]
pub enum Item {
    /// `{name:#}` or `{name:Type}`
    Implicit(Name, ParamKind),
    Check(Expr, Op, Expr),
    /// A field, with its name unless that is `_`.
    Explicit(Option<Name>, FieldType),
}

/// The tag of a constructor.
#[derive(Drop)]
pub enum Tag {
    /// None is written. A constructor without a name has the empty tag then.
    Computed,
    /// At most 1023 bits.
    Given(BitString),
}

/// One declaration of a schema.
#[derive(Drop)]
pub struct Constructor {
    /// Whether a `!` stands before the name: the declaration is of exotic cells.
    pub exotic: bool,
    /// The constructor's name, unless that is `_`.
    pub name: Option<Name>,
    pub tag: Tag,
    pub items: Items<Item>,
    /// The name of the type.
    pub result: Name,
    pub params: Items<Expr>,
}

/// The declarations of a schema in the order of the text.
#[derive(Drop)]
pub struct Schema {
    pub constructors: Items<Constructor>,
}

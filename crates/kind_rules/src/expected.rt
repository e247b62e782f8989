//! What is expected where an expression stands.
ghost use Rattle.std.specs.Prelude.{◌≡◌, map, option_map};
ghost use Rattle.kind_rules.specs.ExpectedKinds.{a_number, a_type, an_output};
ghost use Rattle.kind_rules.specs.ExpectedKinds.{under};
ghost use Rattle.kind_rules.specs.Views.{expected_by};

use bit_slice::Name;

/// Where a type stands.
#[derive(Clone, Copy, Debug, PartialEq, Eq)]
pub enum TypePosition {
    /// The whole type of a field without condition.
    Whole,
    /// After a condition.
    Conditional,
    /// Under the one `^` of these.
    FieldRef,
    /// Under another `^`.
    UnderRef,
    /// An argument, or a repeated type.
    Inner,
}

impl TypePosition {
    /// Where a type stands under a `^` that stands here.
    pub fn under(self) -> TypePosition
        ensures { result ≡ under self }
    {
        match self {
            TypePosition::Whole | TypePosition::Conditional => TypePosition::FieldRef,
            TypePosition::FieldRef | TypePosition::UnderRef | TypePosition::Inner =>
                TypePosition::UnderRef,
        }
    }
}

/// What is expected where an expression stands.
#[derive(Clone, Copy, Debug, PartialEq, Eq)]
pub enum ExpectedKind {
    /// A number, which without variables is at most so much.
    Number(u32),
    /// An argument at an output place.
    Output,
    TypeAt(TypePosition),
}

/// What is expected where an expression stands, and what the rules there speak of.
#[derive(Clone, Copy)]
pub struct Expected<'d> {
    pub kind: ExpectedKind,
    /// The variable that an equation seeks, where the expression stands in one.
    pub sought: Option<&'d Name>,
    /// The outputs of the same type before it.
    pub before: &'d [&'d Name],
}

impl<'d> Expected<'d> {
    pub fn number(most: u32, sought: Option<&'d Name>) -> Expected<'d>
        ensures { expected_by result ≡ a_number most (option_map (λ x. x.now) sought.entry) }
    {
        Expected {
            kind: ExpectedKind::Number(most),
            sought,
            before: &[],
        }
    }

    pub fn output(before: &'d [&'d Name]) -> Expected<'d>
        ensures { expected_by result ≡ an_output (map (λ x. x.now) before.now) }
    {
        Expected {
            kind: ExpectedKind::Output,
            sought: None,
            before,
        }
    }

    pub fn type_at(position: TypePosition) -> Expected<'d>
        ensures { expected_by result ≡ a_type position }
    {
        Expected {
            kind: ExpectedKind::TypeAt(position),
            sought: None,
            before: &[],
        }
    }
}

//! The lexemes of a value's text.
use bit_slice::{BitString, Name};
use typed_value::{Hidden, Number};

/// The signs between the parts of a value's text: `{` `}` `[` `]` `(` `)` `<` `>` `,` `:` `~` `^` `!` `%`.
#[derive(Clone, Copy, Debug, PartialEq, Eq)]
pub enum Sign {
    OpenBrace,
    CloseBrace,
    OpenBracket,
    CloseBracket,
    OpenParen,
    CloseParen,
    Less,
    Greater,
    Comma,
    Colon,
    Tilde,
    Caret,
    Bang,
    Percent,
}

/// A form that can be past a limit.
#[derive(Clone, Copy, Debug, PartialEq, Eq)]
pub enum Form {
    /// A number of 2^128 or more.
    Number,
    /// More than 1023 bits.
    Bits,
    /// A hidden part of a depth of 2^16 or more.
    Hidden,
}

/// A token of a value's text, or what has the spelling of one and is past its limit.
#[derive(Drop)]
pub enum Lexeme {
    Sign(Sign),
    Number(Number),
    Bits(BitString),
    Name(Name),
    Hidden(Hidden),
    Beyond(Form),
}

//! The symbols of the schema language.

ghost use Rattle.std.specs.Prelude.{◌≡◌};
ghost use Rattle.tlb_syntax.specs.Lexeme.{sign_text};

/// A symbol.
#[derive(Clone, Copy, Debug, PartialEq, Eq)]
pub enum Sign {
    /// `#`
    Hash,
    /// `##`
    HashHash,
    /// `#<`
    HashLess,
    /// `#<=`
    HashLessEqual,
    Colon,
    Semicolon,
    Equal,
    OpenParen,
    CloseParen,
    OpenBrace,
    CloseBrace,
    OpenBracket,
    CloseBracket,
    Caret,
    Tilde,
    Question,
    Dot,
    Asterisk,
    Plus,
    Less,
    LessEqual,
    Greater,
    GreaterEqual,
    Bang,
}

impl Sign {
    pub(crate) const ALL: [Sign; 24] = [
        Sign::Hash,
        Sign::HashHash,
        Sign::HashLess,
        Sign::HashLessEqual,
        Sign::Colon,
        Sign::Semicolon,
        Sign::Equal,
        Sign::OpenParen,
        Sign::CloseParen,
        Sign::OpenBrace,
        Sign::CloseBrace,
        Sign::OpenBracket,
        Sign::CloseBracket,
        Sign::Caret,
        Sign::Tilde,
        Sign::Question,
        Sign::Dot,
        Sign::Asterisk,
        Sign::Plus,
        Sign::Less,
        Sign::LessEqual,
        Sign::Greater,
        Sign::GreaterEqual,
        Sign::Bang,
    ];

    /// The bytes of the symbol.
    pub fn text(self) -> &'static [u8]
        ensures { result.now ≡ sign_text self }
    {
        match self {
            Sign::Hash => b"#",
            Sign::HashHash => b"##",
            Sign::HashLess => b"#<",
            Sign::HashLessEqual => b"#<=",
            Sign::Colon => b":",
            Sign::Semicolon => b";",
            Sign::Equal => b"=",
            Sign::OpenParen => b"(",
            Sign::CloseParen => b")",
            Sign::OpenBrace => b"{",
            Sign::CloseBrace => b"}",
            Sign::OpenBracket => b"[",
            Sign::CloseBracket => b"]",
            Sign::Caret => b"^",
            Sign::Tilde => b"~",
            Sign::Question => b"?",
            Sign::Dot => b".",
            Sign::Asterisk => b"*",
            Sign::Plus => b"+",
            Sign::Less => b"<",
            Sign::LessEqual => b"<=",
            Sign::Greater => b">",
            Sign::GreaterEqual => b">=",
            Sign::Bang => b"!",
        }
    }
}

//! The tokens of a TL-B schema: a text of bytes is divided at each place into the longest spelling, with white
//! space and comments between. The signs are those of the TON documentation on TL-B; where that leaves a
//! spelling open, the definitions of this crate fix it.
#![tactic(auto)]

ghost use Rattle.std.specs.Prelude.{◌≡◌, ◌≤◌, ◌^◌, ℕ, List, Result, Ok, Err, length, IfOk, ⊤};
ghost use Rattle.tlb_lexer.specs.Answer.{IfAnswered};
ghost use Rattle.tlb_lexer.specs.Tokenization.{Tokenizes, TokenRefusal, PlacedFrom};
ghost use Rattle.tlb_lexer.specs.declared.Token.{Token};
ghost use Rattle.tlb_lexer.specs.declared.LexError.{LexError};

mod bytes;
pub mod laws;
mod scan;

use scan::Stretch;
use std::alloc::{AllocError, AllocFailed, Global};
use thiserror::Error;
use tlb_memory::NoMemory;

/// What a token is. Which symbol stands in a `Symbol` is read from its bytes.
#[derive(Clone, Copy, Debug, PartialEq, Eq)]
pub enum TokenKind {
    /// A letter, then letters, digits and `_`: at most 127 bytes.
    Name,
    /// `_` alone.
    Blank,
    /// Decimal digits, of any count.
    Number,
    /// `$_`, or `$` and one or more of `0` and `1`.
    BinaryTag,
    /// `#_`, or `#` and one or more hexadecimal digits of either case, with or without a `_` after them.
    HexTag,
    /// `#` `##` `#<` `#<=` `:` `;` `=` `(` `)` `{` `}` `[` `]` `^` `~` `?` `.` `*` `+` `<` `<=` `>` `>=` `!`.
    Symbol,
}

/// A token: the bytes of the text from `from` to before `to`, counted from 0.
#[derive(Clone, Copy, Debug, PartialEq, Eq)]
pub struct Token {
    pub kind: TokenKind,
    pub from: u32,
    pub to: u32,
}

/// Why a text has no tokens. The number is the place in the text, a byte's offset from 0.
#[derive(Clone, Copy, Debug, PartialEq, Eq, Error)]
pub enum LexError {
    /// A byte that begins no token, no white space and no comment.
    #[error("no token begins at byte {0}")]
    BadCharacter(u64),
    /// A `/*` that no `*/` follows.
    #[error("the comment at byte {0} is not closed")]
    OpenComment(u64),
    /// A name of more than 127 bytes.
    #[error("the name at byte {0} is longer than 127 bytes")]
    TooLongName(u64),
    #[error("no memory")]
    NoMemory,
}

impl From<AllocError> for LexError {
    ghost use Rattle.std.specs.Prelude.{◌≡◌};
    ghost use Rattle.tlb_lexer.specs.declared.LexError.TheVariants as errors;

    ghost from_gives = { λ _ e. e ≡ errors.NoMemory };

    fn from(_: AllocError) -> LexError {
        LexError::NoMemory
    }
}

impl From<AllocFailed<Token>> for LexError {
    ghost use Rattle.std.specs.Prelude.{◌≡◌};
    ghost use Rattle.tlb_lexer.specs.declared.LexError.TheVariants as errors;

    ghost from_gives = { λ _ e. e ≡ errors.NoMemory };

    fn from(_: AllocFailed<Token>) -> LexError {
        LexError::NoMemory
    }
}

impl From<NoMemory> for LexError {
    ghost use Rattle.std.specs.Prelude.{◌≡◌};
    ghost use Rattle.tlb_lexer.specs.declared.LexError.TheVariants as errors;

    ghost from_gives = { λ _ e. e ≡ errors.NoMemory };

    fn from(_: NoMemory) -> LexError {
        LexError::NoMemory
    }
}

// The tokens, or the first refusal, by one pass over the text.
fn tokenize(alloc: Global, text: &[u8]) -> Result<Vec<Token>, LexError>
    requires { length text.now ≤ 1048576 }
    ensures { IfAnswered result (λ ts. Tokenizes text.now ts.items) (λ e. TokenRefusal text.now e) }
{
    let mut tokens = Vec::new(alloc);
    let mut place = 0;
    'stretches: while place < text.len() {
        match scan::first_stretch(&text[place..]) {
            Stretch::Gap(len) => place += len,
            Stretch::Spelled(kind, len) => {
                let token = Token {
                    kind,
                    from: place as u32,
                    to: (place + len) as u32,
                };
                tokens.push(token)?;
                place += len;
            }
            Stretch::LongName => return Err(LexError::TooLongName(place as u64)),
            Stretch::OpenComment => return Err(LexError::OpenComment(place as u64)),
            Stretch::Nothing => return Err(LexError::BadCharacter(place as u64)),
        }
    }
    Ok(tokens)
}

/// The tokens of a text of at most 1,048,576 bytes. White space (space, tab, carriage return, line
/// feed) and comments stand freely between: `//` to the end of its line, which a line feed alone or the
/// text's end ends, and `/*` to the next `*/` after it.
pub fn tokens(alloc: Global, text: &[u8]) -> Result<Vec<Token>, LexError>
    requires { length text.now ≤ 1048576 }
    // What is answered holds of the text.
    ensures holds { IfAnswered result (λ ts. Tokenizes text.now ts.items) (λ e. TokenRefusal text.now e) }
    // The tokens of the text are answered, unless memory runs out.
    ensures tokenized { (ts : List Token) → Tokenizes text.now ts
        → IfAnswered result (λ found. found.items ≡ ts) (λ _. ⊥) }
    // The refusal of the text is answered, unless memory runs out.
    ensures refused { (e : LexError) → TokenRefusal text.now e → IfAnswered result (λ _. ⊥) (λ found. found ≡ e) }
    // The tokens stand in order within the text, and their bytes spell their kinds.
    ensures placed { IfAnswered result (λ ts. PlacedFrom text.now 0 ts.items) (λ _. ⊤) }
{
    tokenize(alloc, text)
}

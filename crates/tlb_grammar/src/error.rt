//! Why a text writes no schema.
use thiserror::Error;
use tlb_lexer::LexError;
use tlb_memory::NoMemory;

/// Why a text writes no schema, or a word no type. The number is the place in the text, a byte's offset from 0.
#[derive(Clone, Copy, Debug, PartialEq, Eq, Error)]
pub enum GrammarError {
    /// The text has no tokens.
    #[error("{0}")]
    Lex(LexError),
    /// No declaration goes on with this token, or the text ends too soon.
    #[error("no declaration goes on at byte {0}")]
    Syntax(u64),
    /// The token opens the 65th level.
    #[error("more than 64 levels are open at byte {0}")]
    DeepType(u64),
    /// The 4,097th declaration, or the 257th of one type.
    #[error("one declaration too many at byte {0}")]
    TooManyConstructors(u64),
    /// The 256th item of a record.
    #[error("one item too many at byte {0}")]
    TooManyFields(u64),
    /// The ninth parameter of a result.
    #[error("one parameter too many at byte {0}")]
    TooManyParams(u64),
    #[error("no memory")]
    NoMemory,
}

impl From<NoMemory> for GrammarError {
    ghost use Rattle.std.specs.Prelude.{◌≡◌};
    ghost use Rattle.tlb_grammar.specs.declared.error.GrammarError.TheVariants as errors;

    ghost from_gives = { λ _ e. e ≡ errors.NoMemory };

    fn from(_: NoMemory) -> GrammarError {
        GrammarError::NoMemory
    }
}

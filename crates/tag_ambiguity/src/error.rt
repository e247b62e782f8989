//! Refusals.
use bit_slice::Name;
use std::alloc::AllocError;
use thiserror::Error;
use tlb_memory::NoMemory;

/// Why the constructors of a schema are not told apart. A constructor is shown by its name, or by `_i` where it has
/// none and is the i-th of its type.
#[derive(Debug, Drop, Error)]
pub enum TagError {
    /// The type, and its constructor with a tag of more than 63 bits.
    #[error("a tag has more than 63 bits")]
    TagTooLong(Name, Name),
    /// The type, and two of its constructors that are not separated.
    #[error("two constructors are not told apart")]
    Ambiguous(Name, Name, Name),
    #[error("no memory")]
    NoMemory,
}

impl From<NoMemory> for TagError {
    ghost use Rattle.std.specs.Prelude.{◌≡◌};
    ghost use Rattle.tag_ambiguity.specs.declared.error.TagError.TheVariants as errors;

    ghost from_gives = { λ _ e. e ≡ errors.NoMemory };

    fn from(_: NoMemory) -> TagError {
        TagError::NoMemory
    }
}

impl From<AllocError> for TagError {
    ghost use Rattle.std.specs.Prelude.{◌≡◌};
    ghost use Rattle.tag_ambiguity.specs.declared.error.TagError.TheVariants as errors;

    ghost from_gives = { λ _ e. e ≡ errors.NoMemory };

    fn from(_: AllocError) -> TagError {
        TagError::NoMemory
    }
}

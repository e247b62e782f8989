//! The words of a type word's refusal.
ghost use Rattle.std.specs.Prelude.{◌≡◌, ◌≢◌, IfOk};
ghost use Rattle.type_word.specs.declared.error.TypeError.TheVariants as types;
ghost use Rattle.cli_refusals.specs.Lines.{type_cause};

use crate::lines::{numbered, spaced, words};
use std::alloc::Global;
use tlb_memory::NoMemory;
use type_word::TypeError;

/// The cause of a type word's refusal, and its place or a name.
pub fn type_words(alloc: Global, error: &TypeError) -> Result<Vec<u8>, NoMemory>
    ensures words { IfOk result (λ text. text.items ≡ type_cause error.now) }
    ensures memory { IfOk result (λ _. error.now ≢ types.NoMemory) }
{
    match error {
        TypeError::TypeSyntax(place) => numbered(alloc, b"TypeSyntax", *place),
        TypeError::UnknownType(name) => spaced(alloc, b"UnknownType", name.text()),
        TypeError::Arity(name) => spaced(alloc, b"Arity", name.text()),
        TypeError::Output(name) => spaced(alloc, b"Output", name.text()),
        TypeError::KindMismatch(Some(name)) => spaced(alloc, b"KindMismatch", name.text()),
        TypeError::KindMismatch(None) => words(alloc, b"KindMismatch"),
        TypeError::TooWide => words(alloc, b"TooWide"),
        TypeError::BigType => words(alloc, b"BigType"),
        TypeError::NoMemory => Err(NoMemory),
    }
}

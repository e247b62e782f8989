//! The words of a value text's refusal.
ghost use Rattle.std.specs.Prelude.{◌≡◌, IfOk};
ghost use Rattle.cli_refusals.specs.Lines.{text_cause};

use crate::lines::numbered;
use std::alloc::Global;
use tlb_memory::NoMemory;
use value_grammar::Cause;

/// The cause of a value text's refusal, and its place: a byte from 0.
pub fn text_words(alloc: Global, cause: Cause, place: u64) -> Result<Vec<u8>, NoMemory>
    ensures { IfOk result (λ text. text.items ≡ text_cause cause place) }
{
    match cause {
        Cause::Syntax => numbered(alloc, b"Syntax", place),
        Cause::Range => numbered(alloc, b"Range", place),
        Cause::KeyOrder => numbered(alloc, b"KeyOrder", place),
        Cause::DeepText => numbered(alloc, b"DeepText", place),
        Cause::BulkText => numbered(alloc, b"BulkText", place),
    }
}

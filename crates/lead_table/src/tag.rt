//! The tags of constructors.
ghost use Rattle.std.specs.Prelude.{◌≡◌, IfOk, []};
ghost use Rattle.tlb_syntax.specs.View.{constructor as constructor_view};
ghost use Rattle.schema_leads.specs.Tags.{computed_tag as tag_computed, tag_of as tag_of_view};

use bit_slice::{BitString, BitWriter};
use std::alloc::Global;
use tlb_memory::NoMemory;
use tlb_sums::crc32;
use tlb_syntax::{Constructor, Tag, canonical};

fn empty_tag(alloc: Global) -> Result<BitString, NoMemory>
    ensures { IfOk result (λ bits. bits ≡ []) }
{
    Ok(BitWriter::new(alloc)?.finish())
}

// The 32 bits of the CRC-32 of a text.
fn computed_tag(alloc: Global, text: &[u8]) -> Result<BitString, NoMemory>
    ensures { IfOk result (λ bits. bits ≡ tag_computed text.now) }
{
    let mut bits = BitWriter::new(alloc)?;
    match bits.push_number(u128::from(crc32(text)), 32) {
        Ok(()) => Ok(bits.finish()),
        Err(_) => Err(NoMemory),
    }
}

/// The tag of a constructor, as it is written or computed.
pub fn tag_of(alloc: Global, constructor: &Constructor) -> Result<BitString, NoMemory>
    ensures { IfOk result (λ bits. bits ≡ tag_of_view (constructor_view constructor.now)) }
{
    match &constructor.tag {
        Tag::Given(bits) => BitString::from_slice(alloc, bits.slice()),
        Tag::Computed => {
            if constructor.name.is_none() {
                return empty_tag(alloc);
            }
            let text = canonical(alloc, constructor)?;
            computed_tag(alloc, text.as_slice())
        }
    }
}

//! What a whole value becomes part of.
ghost use Rattle.std.specs.Prelude.{◌≡◌, ◌++◌, ◌∷◌, [], map, IfOk, Ok};
ghost use Rattle.typed_value.specs.View.{dict_parts, record_parts, value};
ghost use Rattle.value_grammar.specs.Steps as steps;
ghost use Rattle.value_parse.specs.Answer.{Moves};
ghost use Rattle.value_parse.specs.View as view;

use crate::error::TextError;
use crate::state::{Frame, Open, Spot};
use bit_slice::{BitString, Name};
use sqlite_items::{Boxed, Items};
use std::alloc::Global;
use tlb_memory::NoMemory;
use typed_value::{Dict, Record, Value};

fn with_field(mut of: Record, label: Name, given: Value) -> Result<Record, NoMemory>
    ensures { IfOk result (λ r. record_parts r
        ≡ ((record_parts of).0, (record_parts of).1 ++ (label, value given) ∷ [])) }
{
    of.fields.push((label, given))?;
    Ok(of)
}

fn with_pair(mut of: Dict, key: BitString, given: Value) -> Result<Dict, NoMemory>
    ensures { IfOk result (λ d. dict_parts d
        ≡ ((dict_parts of).0 ++ (key, value given) ∷ [], (dict_parts of).1)) }
{
    of.pairs.push((key, given))?;
    Ok(of)
}

fn with_item(mut of: Items<Value>, given: Value) -> Result<Items<Value>, NoMemory>
    ensures { IfOk result (λ vs. map value vs ≡ map value of ++ value given ∷ []) }
{
    of.push(given)?;
    Ok(of)
}

/// One more value that is begun.
pub(crate) fn entered(mut below: Vec<Frame>, frame: Frame) -> Result<Vec<Frame>, NoMemory>
    ensures { IfOk result (λ now. view.frames now.items ≡ view.frame frame ∷ view.frames below.items) }
{
    match below.push(frame) {
        Ok(()) => Ok(below),
        Err(_) => Err(NoMemory),
    }
}

/// The same bits once more.
pub(crate) fn copied(alloc: Global, bits: &BitString) -> Result<BitString, NoMemory>
    ensures { IfOk result (λ b. b ≡ bits.now) }
{
    BitString::from_slice(alloc, bits.slice())
}

/// A whole value inside the frames.
pub(crate) fn give(alloc: Global, whole: Value, mut below: Vec<Frame>) -> Result<Open, TextError>
    ensures { Moves result (Ok (steps.give (value whole) (view.frames below.items))) }
{
    let mut given = whole;
    'frames: while let Some(frame) = below.pop() {
        let spot = match frame {
            Frame::Reference => {
                given = Value::Ref(Boxed::new(alloc, given)?);
                continue;
            }
            Frame::Field(of, label) => Spot::AfterField(with_field(of, label, given)?),
            Frame::Item(of) => Spot::AfterItem(with_item(of, given)?),
            Frame::Pair(of, key) => {
                let last = copied(alloc, &key)?;
                Spot::AfterEntry(with_pair(of, key, given)?, last)
            }
        };
        return Ok(Open { spot, below });
    }
    let spot = Spot::Done(given);
    Ok(Open { spot, below })
}

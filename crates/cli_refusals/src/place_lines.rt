//! The words of a place in a value, and why it is one.
ghost use Rattle.std.specs.Prelude.{◌≡◌, [], IfOk, unwrap_or};
ghost use Rattle.field_plan.specs.Placed.{holder_view, place_view};
ghost use Rattle.schema_leads.specs.Tags.{cores};
ghost use Rattle.tlb_syntax.specs.View.{schema as schema_view};
ghost use Rattle.cli_refusals.specs.Lines.{cause_text, holder_text, spot_text};
ghost use Rattle.cli_refusals.specs.Shown.{shown_at};

use crate::path_lines::add_path;
use bit_slice::Name;
use field_plan::{Cause, Holder, Place, Plan};
use std::alloc::Global;
use tlb_memory::NoMemory;

// The name that a constructor is shown by.
fn shown<'a>(plan: &'a Plan, of_type: &Name, number: u32) -> &'a [u8]
    ensures { result.now ≡ unwrap_or (shown_at (cores (schema_view plan.now.0)) of_type.now number) [] }
{
    match plan.shown(of_type, number) {
        Some(name) => name.text(),
        None => b"",
    }
}

// The constructor, or the root by its type.
fn holder_words(
    alloc: Global,
    plan: &Plan,
    root: &[u8],
    holder: &Holder,
) -> Result<Vec<u8>, NoMemory>
    ensures { IfOk result (λ text. text.items
        ≡ holder_text (cores (schema_view plan.now.0)) root.now (holder_view holder.now)) }
{
    match holder {
        Holder::Root => {
            let mut text = Vec::from_slice(alloc, b"root:")?;
            text.extend_from_slice(root)?;
            Ok(text)
        }
        Holder::Constructor(of_type, number) => {
            let mut text = Vec::from_slice(alloc, of_type.text())?;
            text.extend_from_slice(b".")?;
            text.extend_from_slice(shown(plan, of_type, *number))?;
            Ok(text)
        }
    }
}

/// The place where a reading or a building stopped. `root` is the text of the type that was read or built.
pub fn place_words(
    alloc: Global,
    plan: &Plan,
    root: &[u8],
    place: &Place,
) -> Result<Vec<u8>, NoMemory>
    ensures { IfOk result (λ text. text.items
        ≡ spot_text (cores (schema_view plan.now.0)) root.now (place_view place.now).spot) }
{
    let mut text = holder_words(alloc, plan, root, &place.holder)?;
    add_path(alloc, &mut text, &place.field)?;
    Ok(text)
}

/// Why it stopped there.
pub fn cause_words(cause: Cause) -> &'static [u8]
    ensures { result.now ≡ cause_text cause }
{
    match cause {
        Cause::Nesting => b"Nesting",
        Cause::Bulk => b"Bulk",
        Cause::Overflow => b"Overflow",
        Cause::BigType => b"BigType",
        Cause::Width => b"Width",
        Cause::NoConstructor => b"NoConstructor",
        Cause::ShortBits => b"ShortBits",
        Cause::ShortRefs => b"ShortRefs",
        Cause::OutOfRange => b"OutOfRange",
        Cause::Constraint => b"Constraint",
        Cause::NoSolution => b"NoSolution",
        Cause::Idle => b"Idle",
        Cause::Exotic => b"Exotic",
        Cause::Label => b"Label",
        Cause::Leftover => b"Leftover",
        Cause::Shape => b"Shape",
        Cause::AfterRest => b"AfterRest",
        Cause::Full => b"Full",
        Cause::TooDeep => b"TooDeep",
        Cause::Sprawl => b"Sprawl",
    }
}

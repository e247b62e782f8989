//! What stands at an edge: its label, or a hidden part in its place.
ghost use Rattle.std.specs.Prelude.{◌≡◌, ◌≤◌, ◌∷◌, ◌++◌, [], length, IfOk, OnOk};
ghost use Rattle.bit_slice.specs.Bits.{bit_number};
ghost use Rattle.hashmap_labels.specs.Reading.{read_label};
ghost use Rattle.hashmap_labels.specs.Views.{Reads, bits_of};
ghost use Rattle.hashmap_tree.specs.Adds.{Faults, Has, Labels, OnlyMemory, slice_of};
ghost use Rattle.hashmap_tree.specs.Dict.{forms_of, unseen};
ghost use Rattle.hashmap_tree.specs.Entries as entries;
ghost use Rattle.hashmap_tree.specs.Walk as plain;

use crate::found::{Found, WalkCause, WalkError};
use bit_slice::{BitSlice, BitString, BitWriter};
use cell_nodes::{Cell, CellSlice, Hidden, Mode};
use hashmap_labels::{Label, LabelBits, LabelError, read_label, read_label_any};
use std::alloc::Global;

/// The cause that a label's refusal is reported as.
pub(crate) fn cause_of(error: LabelError) -> WalkCause
    ensures { result ≡ plain.cause_of error }
{
    match error {
        LabelError::LabelShort => WalkCause::ShortBits,
        LabelError::LabelLong => WalkCause::Label,
        LabelError::LabelForm => WalkCause::Label,
    }
}

/// The label that the bits begin with, in a form that the mode allows.
fn label_in<'a>(bits: &BitSlice<'a>, n: u32, mode: Mode) -> Result<Label<'a>, LabelError>
    requires { n ≤ 1023 }
    ensures read { Reads result bits.now (read_label (forms_of mode) n bits.now) }
    ensures within { IfOk result (λ label. label.taken ≤ length bits.now) }
{
    match mode {
        Mode::Whole => read_label(bits.again(), n),
        Mode::Partial => read_label(bits.again(), n),
        Mode::Lax => read_label_any(bits.again(), n),
    }
}

/// The bits of the label that the bits begin with, and what follows it.
pub(crate) fn label_of<'a>(
    bits: BitSlice<'a>,
    n: u32,
    mode: Mode,
) -> Result<(LabelBits<'a>, BitSlice<'a>), LabelError>
    requires { n ≤ 1023 }
    ensures gives { Labels result (read_label (forms_of mode) n bits.entry) }
    ensures bound { IfOk result (λ x. length (bits_of x.0) ≤ n) }
{
    match label_in(&bits, n, mode) {
        Err(error) => Err(error),
        Ok(label) => match bits.take(label.taken) {
            None => Err(LabelError::LabelShort),
            Some((_, rest)) => Ok((label.bits, rest)),
        },
    }
}

/// What the cell hides in that mode.
pub(crate) fn unseen(cell: &Cell, mode: Mode) -> Option<Hidden>
    ensures { result ≡ unseen mode cell.now }
{
    match mode {
        Mode::Whole => None,
        Mode::Partial => cell.hidden(),
        Mode::Lax => None,
    }
}

/// A copy of bits, with more after them.
pub(crate) fn joined(
    alloc: Global,
    prefix: &BitString,
    more: &LabelBits<'_>,
) -> Result<BitString, WalkError>
    ensures ok { IfOk result (λ r. r ≡ prefix.now ++ bits_of more.now) }
    ensures err { OnlyMemory result }
{
    let Ok(mut writer) = BitWriter::new(alloc) else {
        return Err(WalkError::NoMemory);
    };
    let Ok(()) = writer.push_bits(prefix.slice()) else {
        return Err(WalkError::NoMemory);
    };
    let Ok(()) = more.push_onto(&mut writer) else {
        return Err(WalkError::NoMemory);
    };
    Ok(writer.finish())
}

/// A copy of bits, with one more.
pub(crate) fn with_bit(alloc: Global, prefix: &BitString, bit: bool) -> Result<BitString, WalkError>
    ensures ok { IfOk result (λ r. r ≡ prefix.now ++ bit_number bit ∷ []) }
    ensures err { OnlyMemory result }
{
    joined(alloc, prefix, &LabelBits::Same(bit, 1))
}

/// No bits.
pub(crate) fn empty(alloc: Global) -> Result<BitString, WalkError>
    ensures ok { IfOk result (λ r. r ≡ []) }
    ensures err { OnlyMemory result }
{
    let Ok(writer) = BitWriter::new(alloc) else {
        return Err(WalkError::NoMemory);
    };
    Ok(writer.finish())
}

/// A fault at an edge.
pub(crate) fn stuck(alloc: Global, prefix: &BitString, cause: WalkCause) -> WalkError
    ensures { Faults prefix.now result (plain.here cause) }
{
    match joined(alloc, prefix, &LabelBits::Same(false, 0)) {
        Err(error) => error,
        Ok(prefix) => WalkError::Stuck(prefix, cause),
    }
}

/// A fault at the first edge.
pub(crate) fn stuck_first(alloc: Global, cause: WalkCause) -> WalkError
    ensures { Faults [] result (plain.here cause) }
{
    match empty(alloc) {
        Err(error) => error,
        Ok(prefix) => WalkError::Stuck(prefix, cause),
    }
}

/// A leaf.
pub(crate) fn leaf<'a>(
    key: BitString,
    s: CellSlice<'a>,
    found: &mut Found<'a>,
) -> Result<(), WalkError>
    ensures ok { OnOk result (Has found.old found.new ((key, entries.leaf (slice_of s.entry)) ∷ [])) }
    ensures err { OnlyMemory result }
{
    match found.pairs.push((key, s)) {
        Ok(()) => Ok(()),
        Err(_) => Err(WalkError::NoMemory),
    }
}

/// A hidden part.
pub(crate) fn hide<'a>(
    alloc: Global,
    prefix: &BitString,
    hidden: Hidden,
    found: &mut Found<'a>,
) -> Result<(), WalkError>
    ensures ok { OnOk result (Has found.old found.new ((prefix.now, entries.hidden hidden) ∷ [])) }
    ensures err { OnlyMemory result }
{
    let key = joined(alloc, prefix, &LabelBits::Same(false, 0))?;
    match found.unknown.push((key, hidden)) {
        Ok(()) => Ok(()),
        Err(_) => Err(WalkError::NoMemory),
    }
}

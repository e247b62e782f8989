//! Writes a label.
ghost use Rattle.std.specs.Prelude.{◌≡◌, ◌≤◌, ◌<◌, ◌+◌, ◌*◌, ◌^◌, ◌++◌, ◌∷◌, [], ◌↔◌, length, replicate, OnOk, OnErr, IsErrOf};
ghost use Rattle.bit_slice.specs.Bits.{bit_length, bit_number, spelled};
ghost use Rattle.hashmap_labels.specs.Labels.{required_form};
ghost use Rattle.hashmap_labels.specs.SpellingLaws.{size};
ghost use Rattle.hashmap_tree.specs.Written.{WritesLabel};

use bit_slice::BitSlice;
use cell_nodes::{CellBuilder, PushError};
use hashmap_labels::{LabelForm, choose, length_width};

/// Adds a number's bits, for which there is room.
fn put_number(w: &mut CellBuilder, value: u128, n: u32)
    requires wide { n ≤ 128 }
    requires fits { value < 2 ^ n }
    requires room { length w.old.bits + n ≤ 1023 }
    ensures bits { w.new.bits ≡ w.old.bits ++ spelled n value }
    ensures refs { w.new.refs ≡ w.old.refs }
{
    let _ = w.push_number(value, n);
}

/// Adds bits, for which there is room.
fn put_bits(w: &mut CellBuilder, bits: BitSlice<'_>)
    requires room { length w.old.bits + length bits ≤ 1023 }
    ensures bits { w.new.bits ≡ w.old.bits ++ bits.entry }
    ensures refs { w.new.refs ≡ w.old.refs }
{
    let _ = w.push_bits(bits);
}

/// Adds ones, for which there is room.
#[tactic(auto, using(crate::proofs::Writes::written))]
fn put_ones(w: &mut CellBuilder, count: u32)
    requires room { length w.old.bits + count ≤ 1023 }
    ensures bits { w.new.bits ≡ w.old.bits ++ replicate count 1 }
    ensures refs { w.new.refs ≡ w.old.refs }
{
    'ones: for i in 0..count {
        put_number(w, 1, 1);
    }
}

/// Adds the short form, for which there is room.
#[tactic(auto, using(crate::proofs::Writes::written))]
fn put_short(w: &mut CellBuilder, bits: BitSlice<'_>)
    requires room { length w.old.bits + (2 * length bits + 2) ≤ 1023 }
    ensures bits { w.new.bits ≡ w.old.bits ++ 0 ∷ (replicate (length bits.entry) 1 ++ (0 ∷ bits.entry)) }
    ensures refs { w.new.refs ≡ w.old.refs }
{
    put_number(w, 0, 1);
    put_ones(w, bits.len());
    put_number(w, 0, 1);
    put_bits(w, bits);
}

/// Adds the long form, for which there is room.
#[tactic(auto, using(crate::proofs::Writes::written))]
fn put_long(w: &mut CellBuilder, bits: BitSlice<'_>, width: u32)
    requires wide { width ≤ 32 }
    requires fits { length bits < 2 ^ width }
    requires room { length w.old.bits + (2 + width + length bits) ≤ 1023 }
    ensures bits { w.new.bits ≡ w.old.bits ++ 1 ∷ (0 ∷ (spelled width (length bits.entry) ++ bits.entry)) }
    ensures refs { w.new.refs ≡ w.old.refs }
{
    put_number(w, 2, 2);
    put_number(w, u128::from(bits.len()), width);
    put_bits(w, bits);
}

/// Adds the form of equal bits, for which there is room.
#[tactic(auto, using(crate::proofs::Writes::written))]
fn put_same(w: &mut CellBuilder, bit: bool, len: u32, width: u32)
    requires wide { width ≤ 32 }
    requires fits { len < 2 ^ width }
    requires room { length w.old.bits + (3 + width) ≤ 1023 }
    ensures bits { w.new.bits ≡ w.old.bits ++ 1 ∷ (1 ∷ (bit_number bit ∷ spelled width len)) }
    ensures refs { w.new.refs ≡ w.old.refs }
{
    put_number(w, 3, 2);
    put_number(w, u128::from(bit), 1);
    put_number(w, u128::from(len), width);
}

/// Writes the label of the bits, which are at most `n`, in its required form. On `Full` the builder is unchanged.
pub fn write_label(w: &mut CellBuilder, bits: BitSlice<'_>, n: u32) -> Result<(), PushError>
    requires within { length bits ≤ n }
    requires short { n ≤ 1023 }
    ensures ok { OnOk result (WritesLabel n bits.entry w.old w.new) }
    ensures err { OnErr result (w.new ≡ w.old) }
    ensures full { IsErrOf result PushError.Full
        ↔ (1023 < length w.old.bits + size (required_form n bits.entry) (bit_length n) (length bits.entry)) }
    ensures not_deep { ¬ IsErrOf result PushError.TooDeep }
{
    let width = length_width(n);
    let form = choose(bits.again(), n);
    let held = w.content().bits.len();
    if held + label_size(form, width, bits.len()) > 1023 {
        return Err(PushError::Full);
    }
    match form {
        LabelForm::Short => put_short(w, bits),
        LabelForm::Long => put_long(w, bits, width),
        LabelForm::Same => {
            let first = bits.known_bit(0);
            put_same(w, first, bits.len(), width);
        }
    }
    Ok(())
}

/// How many bits a label takes.
fn label_size(form: LabelForm, width: u32, len: u32) -> u32
    requires wide { width ≤ 32 }
    requires short { len ≤ 1023 }
    ensures value { result ≡ size form width len }
    ensures bound { result ≤ 2048 }
{
    match form {
        LabelForm::Short => 2 * len + 2,
        LabelForm::Long => 2 + width + len,
        LabelForm::Same => 3 + width,
    }
}

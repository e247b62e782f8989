//! The form that a label must have.
ghost use Rattle.std.specs.Prelude.{◌≡◌, ◌≤◌, length};
ghost use Rattle.bit_slice.specs.Bits.{bit_length};
ghost use Rattle.hashmap_labels.specs.Labels.{all_equal, required_form, form_for};

use bit_slice::BitSlice;

/// How a label is spelled.
#[derive(Clone, Copy, Debug, PartialEq, Eq)]
pub enum LabelForm {
    /// 0, a 1 for each bit, 0, and the bits.
    Short,
    /// 10, the length, and the bits.
    Long,
    /// 11, the bit that all bits are, and the length.
    Same,
}

/// Which forms a label may have.
#[derive(Clone, Copy, Debug, PartialEq, Eq)]
pub enum Forms {
    /// The one that its bits must have.
    Required,
    /// Each that spells them.
    Every,
}

/// How many bits a length takes in the forms `Long` and `Same`.
#[tactic(auto, using(crate::proofs::BitScans::width_of_length))]
pub fn length_width(n: u32) -> u32
    ensures value { result ≡ bit_length n }
    ensures bound { result ≤ 32 }
{
    32 - n.leading_zeros()
}

/// Whether all bits are equal.
fn all_equal(s: &BitSlice<'_>) -> bool
    ensures { result ≡ all_equal s.now }
{
    if s.len() == 0 {
        return true;
    }
    let first = s.known_bit(0);
    'bits: for i in 1..s.len() {
        if s.known_bit(i) != first {
            return false;
        }
    }
    true
}

/// The form that a label of `len` bits must have, of which it says whether they are equal.
pub(crate) fn form_for(len: u32, equal: bool, n: u32) -> LabelForm
    requires { len ≤ 1023 }
    ensures { result ≡ form_for (bit_length n) len equal }
{
    let width = length_width(n);
    if len > 1 && equal && width < 2 * len - 1 {
        return LabelForm::Same;
    }
    if width < len {
        LabelForm::Long
    } else {
        LabelForm::Short
    }
}

/// The form that these bits must have as a label of at most `n` bits.
pub fn choose(bits: BitSlice<'_>, n: u32) -> LabelForm
    requires within { length bits ≤ n }
    requires short { n ≤ 1023 }
    ensures { result ≡ required_form n bits.entry }
{
    form_for(bits.len(), all_equal(&bits), n)
}

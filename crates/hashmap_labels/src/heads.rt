//! The form and the length that a label begins with.
ghost use Rattle.std.specs.Prelude.{◌≡◌, ◌≤◌, ◌<◌, [], ◌∷◌, length, IfSome, MatchOption};
ghost use Rattle.bit_slice.specs.Bits.{bit_number};
ghost use Rattle.hashmap_labels.specs.Reading.{ones_of, read_length, head_of, read_head};
ghost use Rattle.hashmap_labels.specs.Views.{CountsOnes};

use crate::forms::LabelForm;
use bit_slice::BitSlice;

/// A label's form and length, and the bits behind them.
#[derive(Drop)]
pub(crate) struct Head<'a> {
    pub(crate) form: LabelForm,
    /// The bit that the form `Same` repeats.
    pub(crate) repeated: bool,
    pub(crate) len: u32,
    pub(crate) rest: BitSlice<'a>,
}

/// The first bit and the rest.
fn next<'a>(s: BitSlice<'a>) -> Option<(bool, BitSlice<'a>)>
    ensures { MatchOption result (s.entry ≡ []) (λ p. s.entry ≡ bit_number p.0 ∷ p.1) }
{
    if s.len() == 0 {
        return None;
    }
    let first = s.known_bit(0);
    match s.take(1) {
        None => None,
        Some((_, rest)) => Some((first, rest)),
    }
}

/// How many ones stand before the first zero.
fn count_ones(s: &BitSlice<'_>) -> Option<u32>
    ensures count { CountsOnes result s.now }
    ensures bound { IfSome result (λ m. m < length s.now) }
    ensures small { IfSome result (λ m. m < 1023) }
{
    'bits: for i in 0..s.len() {
        if !s.known_bit(i) {
            return Some(i);
        }
    }
    None
}

/// A length in ones and a zero, and what follows it.
fn unary_length<'a>(s: BitSlice<'a>) -> Option<(u32, BitSlice<'a>)>
    ensures { result ≡ ones_of s.entry }
{
    match count_ones(&s) {
        None => None,
        Some(count) => match s.take(count + 1) {
            None => None,
            Some((_, rest)) => Some((count, rest)),
        },
    }
}

/// A length in `width` bits, and what follows it.
fn binary_length<'a>(s: BitSlice<'a>, width: u32) -> Option<(u32, BitSlice<'a>)>
    requires { width ≤ 32 }
    ensures { result ≡ read_length width s.entry }
{
    match s.take(width) {
        None => None,
        Some((bits, rest)) => match bits.number(bits.len()) {
            None => None,
            Some(length) => Some((length as u32, rest)),
        },
    }
}

/// The form and the length that were read, if there is a length.
fn head_of<'a>(
    form: LabelForm,
    repeated: bool,
    length: Option<(u32, BitSlice<'a>)>,
) -> Option<Head<'a>>
    ensures { result ≡ head_of form repeated length.entry }
{
    match length {
        None => None,
        Some((len, rest)) => Some(Head {
            form,
            repeated,
            len,
            rest,
        }),
    }
}

/// The form and the length that the bits begin with, where a length takes `width` bits.
#[tactic(auto, using(crate::proofs::BitScans::same_head))]
pub(crate) fn read_head<'a>(s: BitSlice<'a>, width: u32) -> Option<Head<'a>>
    requires { width ≤ 32 }
    ensures { result ≡ read_head width s.entry }
{
    let Some((first, s)) = next(s) else {
        return None;
    };
    if !first {
        return head_of(LabelForm::Short, false, unary_length(s));
    }
    let Some((second, s)) = next(s) else {
        return None;
    };
    if !second {
        return head_of(LabelForm::Long, false, binary_length(s, width));
    }
    let Some((bit, s)) = next(s) else {
        return None;
    };
    head_of(LabelForm::Same, bit, binary_length(s, width))
}

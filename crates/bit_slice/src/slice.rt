//! A borrowed part of bits.
ghost use Rattle.std.specs.Prelude.{◌≡◌, ◌<◌, ◌≤◌, ◌*◌, ◌+◌, ◌/◌, length, slice_index, take, drop, IsTrue, ◌↔◌};
ghost use Rattle.std.specs.Option.{option_copied};
ghost use Rattle.bit_slice.specs.Bits.{bits_from, AreBits, BeginsWith, taken, front_number, front_signed, number_of};
ghost use Rattle.bit_slice.specs.Bits.{signed_number_of, completed_byte, bit_value, bit_number};

use crate::bytes::{byte_at, completed_byte_at, number_at, read_bit, signed_at};
use std::marker::Model;

/// A borrowed part of bits, from any bit to any bit.
#[derive(Drop)]
pub struct BitSlice<'a> {
    bytes: &'a [u8],
    start: u32,
    len: u32,
}

impl<'a> Model for BitSlice<'a> {
    ghost use Rattle.std.specs.Prelude.{List, ℕ, ◌+◌, ◌*◌, ◌≤◌, length};
    ghost use Rattle.bit_slice.specs.Bits.{bits_from};

    ghost Value = { List ℕ };

    ghost view = { λ s. bits_from s.bytes.now s.start s.len };

    ghost invariant = { λ s. (s.start + s.len ≤ 1023) × (s.start + s.len ≤ 8 * length s.bytes.now) };
}

impl<'a> BitSlice<'a> {
    pub(crate) fn of_bytes(bytes: &'a [u8], len: u32) -> BitSlice<'a>
        requires short { len ≤ 1023 }
        requires within { len ≤ 8 * length bytes.now }
        ensures { result ≡ bits_from bytes.now 0 len }
    {
        BitSlice {
            bytes,
            start: 0,
            len,
        }
    }

    /// The same part once more.
    pub fn again(&self) -> BitSlice<'a>
        ensures { result ≡ self.now }
    {
        BitSlice {
            bytes: self.bytes,
            start: self.start,
            len: self.len,
        }
    }

    /// How many bits there are. Each of them is 0 or 1.
    #[tactic(auto, using(crate::specs::BitLists::bit_lists))]
    pub fn len(&self) -> u32
        ensures value { result ≡ length self.now }
        ensures bound { result ≤ 1023 }
        ensures bits { AreBits self.now }
    {
        self.len
    }

    /// The first `n` bits and the rest.
    #[tactic(auto, using(crate::specs::BitLists::bit_lists))]
    pub fn take(&self, n: u32) -> Option<(BitSlice<'a>, BitSlice<'a>)>
        ensures { result ≡ taken n self.now }
    {
        if n > self.len {
            return None;
        }
        let front = BitSlice {
            bytes: self.bytes,
            start: self.start,
            len: n,
        };
        let rest = BitSlice {
            bytes: self.bytes,
            start: self.start + n,
            len: self.len - n,
        };
        Some((front, rest))
    }

    /// The bit at place `i`.
    #[tactic(auto, using(crate::specs::BitLists::bit_lists))]
    pub fn bit(&self, i: u32) -> Option<bool>
        ensures { result ≡ bit_value i self.now }
    {
        if i >= self.len {
            return None;
        }
        Some(read_bit(self.bytes, self.start + i))
    }

    /// The bit at place `i`, which is there.
    #[tactic(auto, using(crate::specs::BitLists::bit_lists))]
    pub fn known_bit(&self, i: u32) -> bool
        requires { i < length self.now }
        ensures { bit_number result ≡ slice_index self.now i }
    {
        read_bit(self.bytes, self.start + i)
    }

    /// The eight bits from bit `8 * i` on, as a byte.
    #[tactic(auto, using(crate::specs::BitLists::bit_lists))]
    pub(crate) fn whole_byte(&self, i: u32) -> u8
        requires { 8 * i + 8 ≤ length self.now }
        ensures { result ≡ number_of (take 8 (drop (8 * i) self.now)) }
    {
        let _ = &self.len;
        byte_at(self.bytes, self.start + 8 * i)
    }

    /// The number of the first `n` bits.
    #[tactic(auto, using(crate::specs::BitLists::bit_lists))]
    pub fn number(&self, n: u32) -> Option<u128>
        requires { n ≤ 128 }
        ensures { result ≡ front_number n self.now }
    {
        if n > self.len {
            return None;
        }
        Some(number_at(self.bytes, self.start, n))
    }

    /// The two's complement number of the first `n` bits, 0 where `n` is 0.
    #[tactic(auto, using(crate::specs::BitLists::bit_lists))]
    pub fn signed(&self, n: u32) -> Option<i128>
        requires { n ≤ 128 }
        ensures { result ≡ front_signed n self.now }
    {
        if n > self.len {
            return None;
        }
        Some(signed_at(self.bytes, self.start, n))
    }

    /// Byte `i` of the bits, completed to whole bytes by one 1 bit and zeros where they fill none.
    #[tactic(auto, using(crate::specs::BitLists::bit_lists))]
    pub fn completed_byte(&self, i: u32) -> u8
        requires { i < (length self.now + 7) / 8 }
        ensures { result ≡ completed_byte self.now i }
    {
        completed_byte_at(self.bytes, self.start, self.len, i)
    }

    /// Whether both have the same bits.
    pub fn same(&self, other: BitSlice<'_>) -> bool
        ensures { IsTrue result ↔ (self.now ≡ other.entry) }
    {
        self.len() == other.len() && self.begins_with(other)
    }

    /// Whether the first bits are those of `other`.
    #[tactic(auto, using(crate::specs::BitLists::bit_lists))]
    pub fn begins_with(&self, other: BitSlice<'_>) -> bool
        ensures { IsTrue result ↔ BeginsWith self.now other.entry }
    {
        let count = other.len();
        if count > self.len() {
            return false;
        }
        'bits: for i in 0..count {
            if self.known_bit(i) != other.known_bit(i) {
                return false;
            }
        }
        true
    }
}

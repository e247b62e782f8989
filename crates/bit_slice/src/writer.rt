//! Bits that are written one after another.
ghost use Rattle.std.specs.Prelude.{◌≡◌, ◌<◌, ◌≤◌, ◌≢◌, ◌+◌, ◌*◌, ◌/◌, ◌^◌, ◌++◌, ◌∷◌, [], ℕ, length, take, IfOk};
ghost use Rattle.std.specs.Prelude.{IfErr, OnOk, OnErr, ◌↔◌};
ghost use Rattle.std.specs.Result.{IsErr};
ghost use Rattle.bit_slice.specs.Bits.{bit_number, spelled, InSignedRange, signed_spelled};

use crate::bytes::{put_bit, put_byte, twos_complement};
use crate::slice::BitSlice;
use crate::string::BitString;
use std::alloc::Global;
use std::marker::Model;
use tlb_memory::NoMemory;

/// More than 1023 bits would stand.
#[derive(Debug, Drop)]
pub struct Full;

/// A writer, with room for 1023 bits.
#[derive(Drop)]
pub struct BitWriter {
    bytes: Vec<u8>,
    len: u32,
}

impl Model for BitWriter {
    ghost use Rattle.std.specs.Prelude.{List, ℕ, ◌≡◌, ◌≤◌, length};
    ghost use Rattle.bit_slice.specs.Bits.{bits_from};

    ghost Value = { List ℕ };

    ghost view = { λ w. bits_from w.bytes.items 0 w.len };

    ghost invariant = { λ w. (length w.bytes.items ≡ 128) × (w.len ≤ 1023) };
}

impl BitWriter {
    #[tactic(auto, using(crate::specs::BitLists::bit_lists))]
    /// Takes room for 1023 bits.
    pub fn new(alloc: Global) -> Result<BitWriter, NoMemory>
        ensures { IfOk result (λ w. w ≡ []) }
    {
        let bytes = vec![in alloc; 0u8; 128]?;
        Ok(BitWriter { bytes, len: 0 })
    }

    /// How many bits were written.
    #[tactic(auto, using(crate::specs::BitLists::bit_lists))]
    pub fn len(&self) -> u32
        ensures value { result ≡ length self.now }
        ensures bound { result ≤ 1023 }
    {
        self.len
    }

    #[tactic(auto, using(crate::specs::BitLists::bit_lists))]
    fn push(&mut self, bit: bool)
        requires { length self.old < 1023 }
        ensures { self.new ≡ self.old ++ bit_number bit ∷ [] }
    {
        put_bit(&mut self.bytes, self.len, bit);
        self.len += 1;
    }

    #[tactic(auto, using(crate::specs::BitLists::bit_lists))]
    fn push_byte(&mut self, byte: u8)
        requires { length self.old + 8 ≤ 1023 }
        ensures { self.new ≡ self.old ++ spelled 8 byte }
    {
        put_byte(&mut self.bytes, self.len, byte);
        self.len += 8;
    }

    /// Adds the bits of `s` as far as they fill whole bytes.
    fn add_whole_bytes(&mut self, s: &BitSlice<'_>)
        requires { length self.old + length s.now ≤ 1023 }
        ensures { self.new ≡ self.old ++ take (length s.now / 8 * 8) s.now }
    {
        'bytes: for i in 0..s.len() / 8 {
            self.push_byte(s.whole_byte(i));
        }
    }

    /// Adds the bits of `s`.
    #[tactic(auto, using(crate::specs::BitLists::bit_lists))]
    pub fn push_bits(&mut self, s: BitSlice<'_>) -> Result<(), Full>
        ensures ok { OnOk result (self.new ≡ self.old ++ s.entry) }
        ensures err { OnErr result (self.new ≡ self.old) }
        ensures full { IsErr result ↔ (1023 < length self.old + length s.entry) }
    {
        let count = s.len();
        if self.len() + count > 1023 {
            return Err(Full);
        }
        self.add_whole_bytes(&s);
        'bits: for i in count / 8 * 8..count {
            self.push(s.known_bit(i));
        }
        Ok(())
    }

    /// Adds the lowest `n` bits of `value`, the most significant first.
    #[tactic(auto, using(crate::specs::BitLists::bit_lists))]
    pub fn push_number(&mut self, value: u128, n: u32) -> Result<(), Full>
        requires wide { n ≤ 128 }
        requires fits { value < 2 ^ n }
        ensures ok { OnOk result (self.new ≡ self.old ++ spelled n value) }
        ensures err { OnErr result (self.new ≡ self.old) }
        ensures full { IsErr result ↔ (1023 < length self.old + n) }
    {
        if self.len() + n > 1023 {
            return Err(Full);
        }
        self.add_number(value, n);
        Ok(())
    }

    /// Adds the lowest `n` bits of `value`, for which there is room.
    #[tactic(auto, using(crate::specs::BitLists::bit_lists))]
    pub(crate) fn add_number(&mut self, value: u128, n: u32)
        requires wide { n ≤ 128 }
        requires room { length self.old + n ≤ 1023 }
        ensures { self.new ≡ self.old ++ spelled n value }
    {
        'bits: for i in (0..n).rev() {
            self.push((value >> i) & 1 == 1);
        }
    }

    /// Adds the `n` bits of `value` in two's complement.
    pub fn push_signed(&mut self, value: i128, n: u32) -> Result<(), Full>
        requires wide { n ≤ 128 }
        requires range { InSignedRange n value }
        ensures ok { OnOk result (self.new ≡ self.old ++ signed_spelled n value) }
        ensures err { OnErr result (self.new ≡ self.old) }
        ensures full { IsErr result ↔ (1023 < length self.old + n) }
    {
        self.push_number(twos_complement(value, n), n)
    }

    /// All bits so far.
    pub fn slice(&self) -> BitSlice<'_>
        ensures { result ≡ self.now }
    {
        BitSlice::of_bytes(self.bytes.as_slice(), self.len)
    }

    /// The bits that were written.
    pub fn finish(self) -> BitString
        ensures { result ≡ self }
    {
        let BitWriter { bytes, len } = self;
        BitString::of_bytes(bytes, len)
    }
}

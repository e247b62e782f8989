//! At most 1023 bits of one's own.
ghost use Rattle.std.specs.Prelude.{◌≡◌, ◌≤◌, ◌*◌, length, IfOk};
ghost use Rattle.bit_slice.specs.Bits.{bits_from};

use crate::bytes::push_byte;
use crate::slice::BitSlice;
use std::alloc::Global;
use std::marker::Model;
use tlb_memory::NoMemory;

/// At most 1023 bits, as the data of a cell.
#[derive(Debug, Drop)]
pub struct BitString {
    bytes: Vec<u8>,
    len: u32,
}

impl Model for BitString {
    ghost use Rattle.std.specs.Prelude.{List, ℕ, ◌*◌, ◌≤◌, length};
    ghost use Rattle.bit_slice.specs.Bits.{bits_from};

    ghost Value = { List ℕ };

    ghost view = { λ s. bits_from s.bytes.items 0 s.len };

    ghost invariant = { λ s. (s.len ≤ 1023) × (s.len ≤ 8 * length s.bytes.items) };
}

impl BitString {
    pub(crate) fn of_bytes(bytes: Vec<u8>, len: u32) -> BitString
        requires short { len ≤ 1023 }
        requires within { len ≤ 8 * length bytes.items }
        ensures { result ≡ bits_from bytes.items 0 len }
    {
        BitString { bytes, len }
    }

    /// Copies the first `bits` bits of the bytes, the highest bit of a byte first.
    pub fn from_bytes(alloc: Global, bytes: &[u8], bits: u32) -> Result<BitString, NoMemory>
        requires short { bits ≤ 1023 }
        requires within { bits ≤ 8 * length bytes.now }
        ensures { IfOk result (λ s. s ≡ bits_from bytes.now 0 bits) }
    {
        let bytes = bytes.to_vec(alloc)?;
        Ok(BitString::of_bytes(bytes, bits))
    }

    /// Copies the bits.
    pub fn from_slice(alloc: Global, s: BitSlice<'_>) -> Result<BitString, NoMemory>
        ensures { IfOk result (λ copy. copy ≡ s.entry) }
    {
        let len = s.len();
        let count = (len + 7) / 8;
        let mut bytes = Vec::with_capacity(alloc, count as usize)?;
        'bytes: for i in 0..count {
            push_byte(&mut bytes, s.completed_byte(i))?;
        }
        Ok(BitString::of_bytes(bytes, len))
    }

    /// All bits.
    pub fn slice(&self) -> BitSlice<'_>
        ensures { result ≡ self.now }
    {
        BitSlice::of_bytes(self.bytes.as_slice(), self.len)
    }
}

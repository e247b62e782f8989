//! Bits in bytes, read and written. The highest bit of a byte comes first.
ghost use Rattle.std.specs.Prelude.{◌≡◌, ◌<◌, ◌≤◌, ◌≢◌, ◌+◌, ◌*◌, ◌/◌, ◌^◌, ◌++◌, ◌∷◌, [], ℕ, length, OnOk};
ghost use Rattle.std.specs.Int.{bit_at};
ghost use Rattle.bit_slice.specs.Bits.{bits_from, bit_number, bit_of, number_of, spelled, signed_number_of};
ghost use Rattle.bit_slice.specs.Bits.{InSignedRange, twos_complement, completed_byte};

use std::alloc::AllocError;
use tlb_memory::NoMemory;

/// Adds a byte.
pub(crate) fn push_byte(bytes: &mut Vec<u8>, byte: u8) -> Result<(), NoMemory>
    ensures { OnOk result (bytes.new.items ≡ bytes.old.items ++ byte ∷ []) }
{
    bytes.push(byte).map_err(AllocError::from)?;
    Ok(())
}

/// Whether bit `at` is 1.
pub(crate) fn read_bit(bytes: &[u8], at: u32) -> bool
    requires { at < 8 * length bytes.now }
    ensures { bit_number result ≡ bit_of bytes.now at }
{
    (bytes[(at / 8) as usize] >> (7 - at % 8)) & 1 == 1
}

/// The number of the `n` bits from bit `start` on.
#[tactic(auto, using(crate::specs::BitLists::bit_lists))]
pub(crate) fn number_at(bytes: &[u8], start: u32, n: u32) -> u128
    requires wide { n ≤ 128 }
    requires short { start + n ≤ 1023 }
    requires within { start + n ≤ 8 * length bytes.now }
    ensures { result ≡ number_of (bits_from bytes.now start n) }
{
    let mut value: u128 = 0;
    'bits: for i in 0..n {
        let at = start + i;
        let byte = bytes[(at / 8) as usize];
        let bit = (byte >> (7 - at % 8)) & 1;
        value = 2 * value + u128::from(bit);
    }
    value
}

/// The two's complement number of the `n` bits from bit `start` on.
pub(crate) fn signed_at(bytes: &[u8], start: u32, n: u32) -> i128
    requires wide { n ≤ 128 }
    requires short { start + n ≤ 1023 }
    requires within { start + n ≤ 8 * length bytes.now }
    ensures { result ≡ signed_number_of (bits_from bytes.now start n) }
{
    if n == 0 {
        return 0;
    }
    let rest = number_at(bytes, start + 1, n - 1);
    if !read_bit(bytes, start) {
        return rest as i128;
    }
    let half = 1u128 << (n - 1);
    -1 - ((half - 1 - rest) as i128)
}

/// The number below 2^`n` with the same `n` bits as `value` has in two's complement.
pub(crate) fn twos_complement(value: i128, n: u32) -> u128
    requires wide { n ≤ 128 }
    requires range { InSignedRange n value }
    ensures number { result ≡ twos_complement n value }
    ensures fits { result < 2 ^ n }
{
    let size = value.unsigned_abs();
    if value >= 0 {
        return size;
    }
    let half = 1u128 << (n - 1);
    half - size + half
}

/// The byte of the eight bits from bit `at` on.
#[tactic(auto, using(crate::specs::BitLists::bit_lists))]
pub(crate) fn byte_at(bytes: &[u8], at: u32) -> u8
    requires { at + 8 ≤ 8 * length bytes.now }
    ensures { result ≡ number_of (bits_from bytes.now at 8) }
{
    let place = (at / 8) as usize;
    let shift = at % 8;
    if shift == 0 {
        return bytes[place];
    }
    (bytes[place] << shift) | (bytes[place + 1] >> (8 - shift))
}

/// Byte `i` of the `len` bits from bit `start` on, completed to whole bytes.
#[tactic(auto, using(crate::proofs::Completing::completing))]
pub(crate) fn completed_byte_at(bytes: &[u8], start: u32, len: u32, i: u32) -> u8
    requires place { i < (len + 7) / 8 }
    requires short { start + len ≤ 1023 }
    requires within { start + len ≤ 8 * length bytes.now }
    ensures { result ≡ completed_byte (bits_from bytes.now start len) i }
{
    let front = 8 * i;
    let left = len - front;
    if left >= 8 {
        return byte_at(bytes, start + front);
    }
    let tail = number_at(bytes, start + front, left);
    ((2 * tail + 1) << (7 - left)) as u8
}

/// The byte with bit `place`, counted from the lowest, set to `bit`.
#[tactic(auto, using(crate::specs::BitLists::bit_sets))]
fn with_bit(byte: u8, place: u32, bit: bool) -> u8
    requires { place < 8 }
    ensures same { bit_at result place ≡ bit_number bit }
    ensures other { (i : ℕ) → i < 8 → i ≢ place → bit_at result i ≡ bit_at byte i }
{
    if bit {
        return byte | (1u8 << place);
    }
    byte & !(1u8 << place)
}

/// Writes `bit` over bit `at`.
pub(crate) fn put_bit(bytes: &mut Vec<u8>, at: u32, bit: bool)
    requires { at < 8 * length bytes.old.items }
    ensures bits { bits_from bytes.new.items 0 (at + 1) ≡ bits_from bytes.old.items 0 at ++ bit_number bit ∷ [] }
    ensures len { length bytes.new.items ≡ length bytes.old.items }
{
    let place = (at / 8) as usize;
    let byte = with_bit(bytes[place], 7 - at % 8, bit);
    bytes[place] = byte;
}

/// Writes `byte` over the eight bits from bit `at` on.
pub(crate) fn put_byte(bytes: &mut Vec<u8>, at: u32, byte: u8)
    requires { at + 8 ≤ 8 * length bytes.old.items }
    ensures bits { bits_from bytes.new.items 0 (at + 8) ≡ bits_from bytes.old.items 0 at ++ spelled 8 byte }
    ensures len { length bytes.new.items ≡ length bytes.old.items }
{
    let place = (at / 8) as usize;
    let shift = at % 8;
    if shift == 0 {
        bytes[place] = byte;
        return;
    }
    let front = (bytes[place] >> (8 - shift)) << (8 - shift);
    bytes[place] = front | (byte >> shift);
    bytes[place + 1] = byte << (8 - shift);
}

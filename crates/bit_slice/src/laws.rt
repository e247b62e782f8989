//! What ties the definitions on bits. Each function states one law; its body is empty.
ghost use Rattle.std.specs.Prelude.{◌≡◌, ◌≢◌, ◌↔◌, ℕ, suc, ◌+◌, ◌-◌, ◌*◌, ◌/◌, ◌%◌, ◌^◌, ◌<◌, ◌≤◌, ℤ, List, ◌++◌};
ghost use Rattle.std.specs.Prelude.{length, map, take, drop};
ghost use Rattle.std.specs.List.{range_with_len};
ghost use Rattle.bit_slice.specs.Bits.{AreBits, BeginsWith, bits_from, number_of, spelled, signed_number_of};
ghost use Rattle.bit_slice.specs.Bits.{signed_spelled, twos_complement, InSignedRange, bit_length, completed};
ghost use Rattle.bit_slice.specs.Bits.{completed_byte, HexText, IsBadAt, IsTooLong};

/// The number of the bits of a number is that number.
pub fn number_of_spelled()
    ensures { (n v : ℕ) → v < 2 ^ n → number_of (spelled n v) ≡ v }
{}

/// The bits of the number of bits are those bits.
pub fn spelled_number_of()
    ensures { (bits : List ℕ) → AreBits bits → spelled (length bits) (number_of bits) ≡ bits }
{}

/// There are as many bits as are asked for, each 0 or 1.
pub fn spelled_is_bits()
    ensures length { (n v : ℕ) → length (spelled n v) ≡ n }
    ensures bits { (n v : ℕ) → AreBits (spelled n v) }
{}

/// The number of n bits is below 2^n.
pub fn number_of_bound()
    ensures { (bits : List ℕ) → AreBits bits → number_of bits < 2 ^ length bits }
{}

/// The two's complement number of the bits of a number is that number.
pub fn signed_number_of_spelled()
    ensures { (n : ℕ) (v : ℤ) → InSignedRange n v → signed_number_of (signed_spelled n v) ≡ v }
{}

/// The bits of the two's complement number of bits are those bits.
pub fn signed_spelled_number_of()
    ensures range { (bits : List ℕ) → AreBits bits → InSignedRange (length bits) (signed_number_of bits) }
    ensures bits { (bits : List ℕ) → AreBits bits → signed_spelled (length bits) (signed_number_of bits) ≡ bits }
{}

/// A number above 0 has as many binary digits as put it between two powers of 2, and 0 has none.
pub fn bit_length_bound()
    ensures zero { bit_length 0 ≡ 0 }
    ensures below { (n : ℕ) → n < 2 ^ bit_length n }
    ensures above { (n k : ℕ) → 2 ^ k ≤ n → k < bit_length n }
{}

/// The completed bytes, byte by byte.
pub fn completed_by_index()
    ensures { (bits : List ℕ) → completed bits ≡ map (completed_byte bits) (range_with_len 0 ((length bits + 7) / 8)) }
{}

/// The completed bytes begin with the bits.
pub fn completed_begins()
    ensures { (bits : List ℕ) → AreBits bits → bits_from (completed bits) 0 (length bits) ≡ bits }
{}

/// Bits are known from their completed bytes, together with how many of these are whole: the
/// second descriptor byte of a cell tells both.
pub fn completed_injective()
    ensures { (a b : List ℕ) → AreBits a → AreBits b
        → length a / 8 + (length a + 7) / 8 ≡ length b / 8 + (length b + 7) / 8 → completed a ≡ completed b → a ≡ b }
{}

/// A text spells at most one list of bits.
pub fn hex_text_unique()
    ensures { (text a b : List ℕ) → HexText text a → HexText text b → a ≡ b }
{}

/// A text that spells bits has no byte with which it cannot go on, and no text has two first such bytes.
pub fn bad_place_unique()
    ensures good { (text bits : List ℕ) (place : ℕ) → HexText text bits → ¬ IsBadAt text place }
    ensures unique { (text : List ℕ) (p q : ℕ) → IsBadAt text p → IsBadAt text q → p ≡ q }
{}

//! Numbers and bit strings at the head of bits.
ghost use Rattle.std.specs.Prelude.{◌≡◌, ◌≤◌, ◌^◌, ℕ, List, Bool, [], false, length};
ghost use Rattle.bit_slice.specs.Bits.{AreBits, number_of as plain_number, signed_number_of};
ghost use Rattle.cell_nodes.specs.declared.tree.Tree.{Tree};
ghost use Rattle.spelling.specs.Goals.{natural, integer, string};
ghost use Rattle.spelling.specs.Places.{Spot};
ghost use Rattle.spelling.specs.PlainReader as plain;
ghost use Rattle.spelling.specs.Spells.{own};
ghost use Rattle.typed_value.specs.Values as values;
ghost use Rattle.plan_reading.specs.Gives.{Leaf, number_view, slice};

use bit_slice::BitSlice;
use spelling::Cause;
use typed_value::Number;

/// The first `width` bits and the rest.
pub fn read_bits<'a>(bits: &BitSlice<'a>, width: u32) -> Result<(BitSlice<'a>, BitSlice<'a>), Cause>
    ensures { (h : Spot) (refs : List Tree)
        → Leaf h (λ x. (values.bit_string x.0, [], slice x.1 refs)) result
        (plain.read_row h (string width) (slice bits.now refs)) }
{
    bits.take(width).ok_or(Cause::ShortBits)
}

/// A number of `width` bits below a bound, and the rest.
#[tactic(auto, using(crate::proofs::Rows::natural_short, crate::proofs::Rows::natural_row, crate::proofs::Rows::natural_high))]
pub fn read_natural<'a>(
    bits: &BitSlice<'a>,
    width: u32,
    bound: u64,
) -> Result<(u32, BitSlice<'a>), Cause>
    requires width { width ≤ 32 }
    requires bound { bound ≤ 2 ^ 32 }
    ensures { (h : Spot) (named : Bool) (refs : List Tree)
        → Leaf h (λ x. (values.number false x.0, own named x.0, slice x.1 refs)) result
        (plain.read_row h (natural width bound named) (slice bits.now refs)) }
{
    let Some((first, rest)) = bits.take(width) else {
        return Err(Cause::ShortBits);
    };
    let number = number_of(&first);
    if number >= u128::from(bound) {
        return Err(Cause::OutOfRange);
    }
    Ok((number as u32, rest))
}

// The number of at most 128 bits.
fn number_of(bits: &BitSlice<'_>) -> u128
    requires { length bits.now ≤ 128 }
    ensures number { result ≡ plain_number bits.now }
    ensures bits { AreBits bits.now }
{
    match bits.number(bits.len()) {
        Some(number) => number,
        None => unreachable!(),
    }
}

/// A number of `width` bits, however large, and the rest.
#[tactic(auto, using(crate::proofs::Rows::natural_short, crate::proofs::Rows::unsigned_row))]
pub fn read_unsigned<'a>(bits: &BitSlice<'a>, width: u32) -> Result<(Number, BitSlice<'a>), Cause>
    requires { width ≤ 128 }
    ensures { (h : Spot) (refs : List Tree)
        → Leaf h (λ x. (number_view x.0, [], slice x.1 refs)) result
        (plain.read_row h (natural width (2 ^ width) false) (slice bits.now refs)) }
{
    let Some((first, rest)) = bits.take(width) else {
        return Err(Cause::ShortBits);
    };
    let number = Number {
        negative: false,
        size: number_of(&first),
    };
    Ok((number, rest))
}

/// An integer of `width` bits in two's complement, and the rest.
#[tactic(auto, using(crate::proofs::Rows::signed_short, crate::proofs::Rows::signed_row))]
pub fn read_signed<'a>(bits: &BitSlice<'a>, width: u32) -> Result<(Number, BitSlice<'a>), Cause>
    requires { width ≤ 128 }
    ensures { (h : Spot) (refs : List Tree)
        → Leaf h (λ x. (number_view x.0, [], slice x.1 refs)) result
        (plain.read_row h (integer width) (slice bits.now refs)) }
{
    let Some((first, rest)) = bits.take(width) else {
        return Err(Cause::ShortBits);
    };
    Ok((signed_number(integer_of(&first)), rest))
}

// The two's complement number of at most 128 bits.
fn integer_of(bits: &BitSlice<'_>) -> i128
    requires { length bits.now ≤ 128 }
    ensures number { result ≡ signed_number_of bits.now }
    ensures bits { AreBits bits.now }
{
    match bits.signed(bits.len()) {
        Some(number) => number,
        None => unreachable!(),
    }
}

// An integer by its sign and its size.
fn signed_number(integer: i128) -> Number
    ensures { number_view result ≡ plain.number_value integer }
{
    Number {
        negative: integer < 0,
        size: integer.unsigned_abs(),
    }
}

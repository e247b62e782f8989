//! Numbers and bit strings.
ghost use Rattle.std.specs.Prelude.{◌≡◌, ◌-◌, ◌<◌, ◌≤◌, ◌^◌, ℕ, Bool, Err, false, nat_lt, true};
ghost use Rattle.closed_type.specs.View.{closed_type as type_view};
ghost use Rattle.building.specs.PlainBuilder as plain;
ghost use Rattle.building.specs.Growing.{Grown};
ghost use Rattle.plan_reading.specs.Stops.{Gives, Stops};
ghost use Rattle.spelling.specs.Goals as goals;
ghost use Rattle.spelling.specs.Places.{Spot, stuck};
ghost use Rattle.spelling.specs.Spells.{own};
ghost use Rattle.plan_building.specs.Numbers.{IsComplement, width_of};
ghost use Rattle.plan_building.specs.View.{grown, made};

use crate::growing::{Growing, put_bits, put_number};
use crate::outputs::Outputs;
use bit_slice::BitSlice;
use closed_type::ClosedType;
use hashmap_labels::length_width;
use plan_reading::{StopError, stop_here};
use spelling::Cause;
use std::alloc::Global;
use typed_value::Number;

// Whether a number has at most so many bits.
fn fits(number: u128, width: u32) -> bool
    ensures { result ≡ nat_lt number (2 ^ width) }
{
    width >= 128 || number < 1u128 << width
}

// Where a negative number stops at a type of naturals: 0 has no sign.
fn refuse_negative(alloc: Global, number: Number) -> StopError
    ensures { (h : Spot) (width bound : ℕ) (named : Bool) (b : Grown)
        → Stops h result (plain.make_natural h width bound named true number.size b) }
{
    if number.size == 0 {
        stop_here(alloc, Cause::Shape)
    } else {
        stop_here(alloc, Cause::OutOfRange)
    }
}

// A number of `width` bits below a bound, which is its own output.
fn make_natural(
    alloc: Global,
    width: u32,
    bound: u64,
    number: Number,
    b: &mut Growing,
) -> Result<Outputs, StopError>
    requires width { width ≤ 32 }
    requires bound { bound ≤ 2 ^ width }
    ensures { (h : Spot) → Gives h (made b.new) result
        (plain.make_natural h width bound true number.negative number.size (grown b.old)) }
{
    if number.negative {
        return Err(refuse_negative(alloc, number));
    }
    if number.size >= u128::from(bound) {
        return Err(stop_here(alloc, Cause::OutOfRange));
    }
    put_number(alloc, number.size, width, b)?;
    Ok(Outputs::One(number.size as u32))
}

// A number of `width` bits, however large.
fn make_unsigned(
    alloc: Global,
    width: u32,
    number: Number,
    b: &mut Growing,
) -> Result<Outputs, StopError>
    requires { width ≤ 128 }
    ensures { (h : Spot) → Gives h (made b.new) result
        (plain.make_natural h width (2 ^ width) false number.negative number.size (grown b.old)) }
{
    if number.negative {
        return Err(refuse_negative(alloc, number));
    }
    if fits(number.size, width) {
        put_number(alloc, number.size, width, b)?;
        return Ok(Outputs::Empty);
    }
    Err(stop_here(alloc, Cause::OutOfRange))
}

// Half of the numbers of so many bits.
fn half(width: u32) -> u128
    requires some { 0 < width }
    requires wide { width ≤ 128 }
    ensures { result ≡ 2 ^ (width - 1) }
{
    1u128 << (width - 1)
}

// The number with the bits of an integer in two's complement, if it has at most so many bits.
fn complement(number: Number, width: u32) -> Option<u128>
    requires wide { width ≤ 128 }
    requires sign { number.negative ≡ true → 0 < number.size }
    ensures { IsComplement number.negative number.size width result }
{
    if width == 0 {
        return if number.size == 0 { Some(0) } else { None };
    }
    let half = half(width);
    if number.negative {
        return if number.size <= half {
            Some(half - number.size + half)
        } else {
            None
        };
    }
    if number.size < half {
        Some(number.size)
    } else {
        None
    }
}

// Whether a number is 0 and has a sign.
fn is_signed_zero(number: Number) -> bool
    ensures some { result ≡ true → (number.negative ≡ true) × (number.size ≡ 0) }
    ensures none { result ≡ false → number.negative ≡ true → 0 < number.size }
{
    number.negative && number.size == 0
}

// An integer of `width` bits in two's complement.
fn make_signed(
    alloc: Global,
    width: u32,
    number: Number,
    b: &mut Growing,
) -> Result<Outputs, StopError>
    requires { width ≤ 128 }
    ensures { (h : Spot) → Gives h (made b.new) result
        (plain.make_number h (goals.integer width) number.negative number.size (grown b.old)) }
{
    if is_signed_zero(number) {
        return Err(stop_here(alloc, Cause::Shape));
    }
    match complement(number, width) {
        None => Err(stop_here(alloc, Cause::OutOfRange)),
        Some(bits) => {
            put_number(alloc, bits, width, b)?;
            Ok(Outputs::Empty)
        }
    }
}

// How many numbers have so many bits.
fn power(width: u32) -> u64
    requires { width ≤ 32 }
    ensures { result ≡ 2 ^ width }
{
    1u64 << width
}

// A stop where the call began, in place of what is built.
fn refuse(alloc: Global, cause: Cause) -> StopError
    ensures { (h : Spot) → Stops {Y = plain.Made} h result (Err (stuck h cause)) }
{
    stop_here(alloc, cause)
}

/// A number at a closed type whose width is in the table. One of `#`, `##`, `#<` and `#<=` is its own output.
#[tactic(auto, using(crate::proofs::Numbering::below_fits, crate::proofs::Numbering::up_to_fits))]
pub fn make_number(
    alloc: Global,
    ty: &ClosedType,
    number: Number,
    b: &mut Growing,
) -> Result<Outputs, StopError>
    requires { goals.in_table (type_view ty.now) ≡ true }
    ensures { (h : Spot) → Gives h (made b.new) result
        (plain.make_number h (goals.row (type_view ty.now)) number.negative number.size (grown b.old)) }
{
    match ty {
        ClosedType::Nat32 => make_natural(alloc, 32, 4_294_967_296, number, b),
        ClosedType::Bits(n) => make_natural(alloc, *n, power(*n), number, b),
        ClosedType::Below(n) => {
            make_natural(
                alloc,
                length_width(n.saturating_sub(1)),
                u64::from(*n),
                number,
                b,
            )
        }
        ClosedType::UpTo(n) => make_natural(alloc, length_width(*n), u64::from(*n) + 1, number, b),
        ClosedType::Uint(n) => {
            if *n <= 128 {
                make_unsigned(alloc, *n, number, b)
            } else {
                Err(refuse(alloc, Cause::Shape))
            }
        }
        ClosedType::Int(n) => {
            if *n <= 128 {
                make_signed(alloc, *n, number, b)
            } else {
                Err(refuse(alloc, Cause::Shape))
            }
        }
        ClosedType::BitStr(_) => Err(refuse(alloc, Cause::Shape)),
        ClosedType::Whole => Err(refuse(alloc, Cause::Shape)),
        ClosedType::Ref(_) => Err(refuse(alloc, Cause::Shape)),
        ClosedType::Repeat(_, _) => Err(refuse(alloc, Cause::Shape)),
        ClosedType::Dict(_, _) => Err(refuse(alloc, Cause::Shape)),
        ClosedType::DictE(_, _) => Err(refuse(alloc, Cause::Shape)),
        ClosedType::Named(_, _) => Err(refuse(alloc, Cause::Shape)),
    }
}

// How many bits the type takes as they are, if it takes bits so.
fn string_width(ty: &ClosedType) -> Option<u32>
    ensures { result ≡ width_of (goals.row (type_view ty.now)) }
{
    match ty {
        ClosedType::BitStr(n) => Some(*n),
        ClosedType::Uint(n) | ClosedType::Int(n) if *n > 128 => Some(*n),
        _ => None,
    }
}

/// A bit string at a closed type.
pub fn make_string(
    alloc: Global,
    ty: &ClosedType,
    string: BitSlice<'_>,
    b: &mut Growing,
) -> Result<Outputs, StopError>
    ensures { (h : Spot) → Gives h (made b.new) result
        (plain.make_string h (goals.row (type_view ty.now)) string.entry (grown b.old)) }
{
    match string_width(ty) {
        None => Err(stop_here(alloc, Cause::Shape)),
        Some(width) => {
            if width != string.len() {
                return Err(stop_here(alloc, Cause::Shape));
            }
            put_bits(alloc, string, b)?;
            Ok(Outputs::Empty)
        }
    }
}

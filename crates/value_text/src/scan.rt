//! What stands at the beginning of a text.
ghost use Rattle.std.specs.Prelude.{◌≡◌, ◌<◌, ◌≤◌, ◌+◌, ◌-◌, ◌*◌, ◌^◌, true, IfOk, IfSome, MatchOption, length};
ghost use Rattle.std.specs.List.{list_all};
ghost use Rattle.std.specs.Char.{is_ascii_digit};
ghost use Rattle.std.specs.Str.Parse.{digits_value};
ghost use Rattle.value_text.specs.Lexemes.{NothingStands, Spells, Stands};
ghost use Rattle.value_text.specs.LexemePoints.{Holds, IsBits, IsDeep, IsHashText, IsNumber, Leads, is_end};
ghost use Rattle.value_text.specs.Writes.{AreBytes};
ghost use Rattle.hex.specs.Hex.{encode_lower};

use crate::lexeme::{Form, Lexeme};
use crate::spot::{Spot, sign_at};
use bit_slice::{BitString, HexTextError, Name};
use std::alloc::Global;
use tlb_memory::NoMemory;
use typed_value::{Hidden, Number};

// A number with one more decimal digit, where it stays below 2^128.
fn with_digit(value: u128, digit: u8) -> Option<u128>
    requires low { 48 ≤ digit }
    requires high { digit ≤ 57 }
    ensures { let more = value * 10 + (digit - 48) in
        MatchOption result (2 ^ 128 ≤ more) (λ next. (next ≡ more) × (next < 2 ^ 128)) }
{
    let digit = u128::from(digit - b'0');
    if value > (u128::MAX - digit) / 10 {
        return None;
    }
    Some(value * 10 + digit)
}

// The number of decimal digits, where it is below 2^128.
fn value_of(digits: &[u8]) -> Option<u128>
    requires { list_all is_ascii_digit digits.now ≡ true }
    ensures { MatchOption result (2 ^ 128 ≤ digits_value 10 digits.now)
        (λ value. (value ≡ digits_value 10 digits.now) × (value < 2 ^ 128)) }
{
    let mut value = 0;
    'digits: for digit in digits {
        let Some(next) = with_digit(value, *digit) else {
            return None;
        };
        value = next;
    }
    Some(value)
}

// How many bytes of the text lead on, and where they lead to.
fn longest(text: &[u8]) -> (usize, Spot)
    ensures { Leads text.now result.0 result.1 }
{
    let mut spot = Spot::Start;
    'bytes: for (i, byte) in text.iter().enumerate() {
        let Some(next) = spot.next(*byte) else {
            return (i, spot);
        };
        spot = next;
    }
    (text.len(), spot)
}

// A number, which begins by a `-` where it is negative.
fn number_of(bytes: &[u8]) -> Lexeme
    requires { IsNumber bytes.now }
    ensures { Spells result bytes.now }
{
    let negative = bytes[0] == b'-';
    let digits = if negative { &bytes[1..] } else { bytes };
    match value_of(digits) {
        Some(size) => Lexeme::Number(Number { negative, size }),
        None => Lexeme::Beyond(Form::Number),
    }
}

// Bits, which stand between `x{` and `}`.
fn bits_of(alloc: Global, bytes: &[u8]) -> Result<Lexeme, NoMemory>
    requires { IsBits bytes.now }
    ensures { IfOk result (λ l. Spells l bytes.now) }
{
    match BitString::from_hex_text(alloc, &bytes[2..bytes.len() - 1]) {
        Ok(bits) => Ok(Lexeme::Bits(bits)),
        Err(HexTextError::TooLong) => Ok(Lexeme::Beyond(Form::Bits)),
        Err(_) => Err(NoMemory),
    }
}

// The hash of 64 digits.
fn hash_of(digits: &[u8]) -> [u8; 32]
    requires { IsHashText digits.now }
    ensures text { digits.now ≡ encode_lower result }
    ensures size { length result ≡ 32 }
    ensures bytes { AreBytes result }
{
    let mut hash = [0; 32];
    let _ = hex::decode_to_slice(digits, &mut hash);
    hash
}

// A hidden part: `?`, 64 digits, `.` and the digits of a depth.
fn hidden_of(bytes: &[u8]) -> Lexeme
    requires deep { IsDeep bytes.now }
    requires long { 66 ≤ length bytes.now }
    ensures { Spells result bytes.now }
{
    let hash = hash_of(&bytes[1..65]);
    match value_of(&bytes[66..]) {
        Some(depth) if depth <= u128::from(u16::MAX) => Lexeme::Hidden(Hidden {
            hash,
            depth: depth as u16,
        }),
        _ => Lexeme::Beyond(Form::Hidden),
    }
}

// The lexeme that ends at the spot.
fn lexeme_of(alloc: Global, spot: Spot, bytes: &[u8]) -> Result<Lexeme, NoMemory>
    requires holds { Holds spot bytes.now }
    requires whole { is_end spot ≡ true }
    ensures { IfOk result (λ l. Spells l bytes.now) }
{
    match spot {
        Spot::Zero => Ok(Lexeme::Number(Number {
            negative: bytes[0] == b'-',
            size: 0,
        })),
        Spot::Digits => Ok(number_of(bytes)),
        Spot::Closed => bits_of(alloc, bytes),
        Spot::DepthZero | Spot::DepthDigits => Ok(hidden_of(bytes)),
        Spot::Signed => match sign_at(bytes[0]) {
            Some(sign) => Ok(Lexeme::Sign(sign)),
            None => Err(NoMemory),
        },
        _ => Ok(Lexeme::Name(Name::new(alloc, bytes)?)),
    }
}

/// What stands at the beginning of a text, and how many bytes of it: the longest spelling. None: nothing does.
pub fn lexeme_at(alloc: Global, text: &[u8]) -> Result<Option<(Lexeme, usize)>, NoMemory>
    ensures stands { IfOk result (λ found. MatchOption found (NothingStands text.now)
        (λ l. Stands l.0 l.1 text.now)) }
    ensures some { IfOk result (λ found. IfSome found (λ l. (0 < l.1) × (l.1 ≤ length text.now))) }
{
    let (len, spot) = longest(text);
    if !spot.is_end() {
        return Ok(None);
    }
    let lexeme = lexeme_of(alloc, spot, &text[..len])?;
    Ok(Some((lexeme, len)))
}

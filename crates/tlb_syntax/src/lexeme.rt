//! Tokens with what they stand for.
ghost use Rattle.std.specs.Prelude.{◌≡◌, ◌≢◌, ◌<◌, ◌≤◌, ◌+◌, ◌*◌, ◌/◌, ◌^◌, ◌||◌, ◌++◌, Some, None, ℕ, List, []};
ghost use Rattle.std.specs.Prelude.{length, take, drop, codes, IfOk, IsTrue, IsSome, MatchOption, ◌↔◌, EachIndex};
ghost use Rattle.std.specs.Prelude.{slice_index};
ghost use Rattle.std.specs.List.{flat_map, list_all};
ghost use Rattle.bit_slice.specs.Bits.{spelled};
ghost use Rattle.tlb_lexer.specs.Bytes.{is_hex_digit};
ghost use Rattle.tlb_lexer.specs.Tokenization.{token_bytes};
ghost use Rattle.tlb_lexer.specs.Spelling.{spells, is_underscore, are_bits, ends_hex};
ghost use Rattle.tlb_syntax.specs.Lexeme.{lexeme, lexeme_of, number_of, sign_among, signs, sign_text, binary_bits};
ghost use Rattle.tlb_syntax.specs.Lexeme.{hexadecimal_bits, hex_value, hex_bits};
ghost use Rattle.tlb_syntax.specs.Placed.{IsWithin, IsSpelled};
ghost use Rattle.tlb_syntax.specs.Tags.{bits_of, HasBits, IsCompleted, IsLastNonzero, IsUncompleted};

use crate::sign::Sign;
use bit_slice::{BitString, BitWriter};
use std::alloc::Global;
use tlb_lexer::{Token, TokenKind};
use tlb_memory::NoMemory;

/// A token with what it stands for.
#[derive(Clone, Copy, Debug, PartialEq, Eq)]
pub enum Lexeme<'a> {
    /// A name by its bytes.
    Name(&'a [u8]),
    /// `_`
    Blank,
    /// A number, or `None` where it is above 2^32 − 1.
    Number(Option<u32>),
    /// The bytes after the `$` of a tag.
    BinaryTag(&'a [u8]),
    /// The bytes after the `#` of a tag.
    HexTag(&'a [u8]),
    Sign(Sign),
    /// Bytes that spell no symbol.
    Other,
}

/// The lexeme that a token of the text is.
pub fn lexeme_at<'a>(text: &'a [u8], token: &Token) -> Lexeme<'a>
    requires { IsWithin text.now token.now }
    ensures meaning { lexeme result ≡ lexeme_of text.now token.now }
    // What the lexer spelled can be read further.
    ensures spelled { IsTrue (spells token.now.kind (token_bytes text.now token.now)) → IsSpelled result }
{
    let bytes = bytes_of(text, token);
    match token.kind {
        TokenKind::Name => Lexeme::Name(bytes),
        TokenKind::Blank => Lexeme::Blank,
        TokenKind::Number => Lexeme::Number(number_of(bytes)),
        TokenKind::BinaryTag => Lexeme::BinaryTag(after_first(bytes)),
        TokenKind::HexTag => Lexeme::HexTag(after_first(bytes)),
        TokenKind::Symbol => sign_among(&Sign::ALL, bytes),
    }
}

// The bytes of a token.
fn bytes_of<'a>(text: &'a [u8], token: &Token) -> &'a [u8]
    requires { IsWithin text.now token.now }
    ensures { result.now ≡ token_bytes text.now token.now }
{
    &text[token.from as usize..token.to as usize]
}

// What stands after the first byte.
fn after_first(bytes: &[u8]) -> &[u8]
    ensures { result.now ≡ drop 1 bytes.entry.now }
{
    match bytes {
        [] => bytes,
        [_, rest @ ..] => rest,
    }
}

// The number of decimal digits, where it is at most 2^32 - 1.
fn number_of(digits: &[u8]) -> Option<u32>
    ensures { result ≡ number_of digits.now }
{
    let mut number: u32 = 0;
    'digits: for digit in digits {
        let value = u32::from(digit.saturating_sub(b'0'));
        number = number.checked_mul(10)?.checked_add(value)?;
    }
    Some(number)
}

// The first of these symbols that the bytes spell.
fn sign_among<'a>(signs: &[Sign], bytes: &'a [u8]) -> Lexeme<'a>
    ensures meaning { lexeme result ≡ sign_among signs.now bytes.entry.now }
    ensures spelled { IsSpelled result }
{
    'signs: for sign in signs {
        if sign.text() == bytes {
            return Lexeme::Sign(*sign);
        }
    }
    Lexeme::Other
}

/// Whether the lexeme is a tag that stands for at most 1023 bits.
pub fn has_tag_bits(tag: &Lexeme<'_>) -> bool
    requires { IsSpelled tag.now }
    ensures { IsTrue result ↔ IsSome (bits_of (lexeme tag.now)) }
{
    match tag {
        Lexeme::BinaryTag(digits) => *digits == b"_".as_slice() || digits.len() <= MOST_BITS,
        Lexeme::HexTag(digits) => hex_len(digits).is_some(),
        _ => false,
    }
}

/// The bits of a tag, where it stands for at most 1023 bits. In a hexadecimal tag a `_` at the end drops the last
/// 1 bit and the zeros after it.
pub fn tag_bits(alloc: Global, tag: &Lexeme<'_>) -> Result<Option<BitString>, NoMemory>
    requires { IsSpelled tag.now }
    ensures { IfOk result (λ found. found ≡ bits_of (lexeme tag.now)) }
{
    match tag {
        Lexeme::BinaryTag(digits) => binary_bits(alloc, digits),
        Lexeme::HexTag(digits) => hexadecimal_bits(alloc, digits),
        _ => Ok(None),
    }
}

const MOST_BITS: usize = 1023;

fn binary_bits(alloc: Global, digits: &[u8]) -> Result<Option<BitString>, NoMemory>
    requires { IsTrue (is_underscore digits.now || are_bits digits.now) }
    ensures { IfOk result (λ found. found ≡ binary_bits digits.now) }
{
    let mut bits = BitWriter::new(alloc)?;
    if digits == b"_".as_slice() {
        return Ok(Some(bits.finish()));
    }
    if digits.len() > MOST_BITS {
        return Ok(None);
    }
    'digits: for digit in digits {
        push_small(&mut bits, digit.saturating_sub(b'0'), 1);
    }
    Ok(Some(bits.finish()))
}

fn hexadecimal_bits(alloc: Global, digits: &[u8]) -> Result<Option<BitString>, NoMemory>
    requires { IsTrue (ends_hex digits.now) }
    ensures { IfOk result (λ found. found ≡ hexadecimal_bits digits.now) }
{
    let mut bits = BitWriter::new(alloc)?;
    let Some(count) = hex_len(digits) else {
        return Ok(None);
    };
    push_prefix(&mut bits, digits, count);
    Ok(Some(bits.finish()))
}

// How many bits the digits after a `#` stand for.
fn hex_len(digits: &[u8]) -> Option<usize>
    requires { IsTrue (ends_hex digits.now) }
    ensures { MatchOption result (hexadecimal_bits digits.now ≡ None) (λ n. HasBits digits.now n) }
{
    let Some(prefix) = before_underscore(digits) else {
        return if digits.len() <= MOST_BITS / 4 {
            Some(4 * digits.len())
        } else {
            None
        };
    };
    if prefix.is_empty() {
        Some(0)
    } else {
        completed_len(prefix)
    }
}

fn before_underscore(digits: &[u8]) -> Option<&[u8]>
    ensures { MatchOption result ((prefix : List ℕ)
        → digits.entry.now ≢ prefix ++ codes "_") (λ prefix. digits.entry.now ≡ prefix.now ++ codes "_") }
{
    digits.strip_suffix(b"_")
}

// How many bits stand before the last 1 of the digits, where that is at most 1023.
fn completed_len(digits: &[u8]) -> Option<usize>
    requires { IsTrue (list_all is_hex_digit digits.now) }
    ensures { MatchOption result (IsUncompleted digits.now) (λ n. IsCompleted digits.now n) }
{
    let last = last_nonzero(digits)?;
    if last > MOST_BITS / 4 {
        return None;
    }
    Some(4 * last + 3 - hex_value(digits[last]).trailing_zeros() as usize)
}

fn last_nonzero(digits: &[u8]) -> Option<usize>
    ensures { MatchOption result (EachIndex digits.now (λ i. slice_index digits.now i
        ≡ 48)) (λ last. IsLastNonzero digits.now last) }
{
    'digits: for i in (0..digits.len()).rev() {
        if digits[i] != b'0' {
            return Some(i);
        }
    }
    None
}

fn hex_value(digit: u8) -> u8
    requires { IsTrue (is_hex_digit digit) }
    ensures value { result ≡ hex_value digit }
    ensures small { result < 16 }
{
    match digit {
        b'0'..=b'9' => digit - b'0',
        b'a'..=b'f' => digit - 87,
        _ => digit - 55,
    }
}

// Adds the first bits of the digits.
fn push_prefix(bits: &mut BitWriter, digits: &[u8], count: usize)
    requires room { length bits.old + count ≤ 1023 }
    requires within { count ≤ 4 * length digits.now }
    requires digits { IsTrue (list_all is_hex_digit (take ((count + 3) / 4) digits.now)) }
    ensures { bits.new ≡ bits.old ++ take count (flat_map hex_bits digits.now) }
{
    let whole = count / 4;
    push_digits(bits, &digits[..whole]);
    let part = (count % 4) as u32;
    if part > 0 {
        push_small(bits, hex_value(digits[whole]) >> (4 - part), part);
    }
}

// Adds four bits for each digit.
fn push_digits(bits: &mut BitWriter, digits: &[u8])
    requires room { length bits.old + 4 * length digits.now ≤ 1023 }
    requires digits { IsTrue (list_all is_hex_digit digits.now) }
    ensures { bits.new ≡ bits.old ++ flat_map hex_bits digits.now }
{
    'digits: for digit in digits {
        push_small(bits, hex_value(*digit), 4);
    }
}

// Adds the lowest bits of a number, for which there is room.
fn push_small(bits: &mut BitWriter, value: u8, count: u32)
    requires few { count ≤ 8 }
    requires fits { value < 2 ^ count }
    requires room { length bits.old + count ≤ 1023 }
    ensures { bits.new ≡ bits.old ++ spelled count value }
{
    match bits.push_number(u128::from(value), count) {
        Ok(()) => {}
        Err(_) => unreachable!(),
    }
}

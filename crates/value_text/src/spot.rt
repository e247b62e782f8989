//! Where the text of a lexeme stands, byte by byte.
ghost use Rattle.std.specs.Prelude.{◌≡◌};
ghost use Rattle.value_text.specs.LexemePoints as points;

use crate::lexeme::Sign;
use crate::point::{is_hex_digit, is_markable, is_name_byte};

/// Where the text of a lexeme stands.
#[derive(Clone, Copy)]
pub(crate) enum Spot {
    /// Before the first byte.
    Start,
    /// After `-`.
    Minus,
    /// After the number `0` or `-0`.
    Zero,
    /// In another number.
    Digits,
    /// After `x`: a name, or bits where a `{` follows.
    X,
    /// In a name that begins with a letter.
    Letters,
    /// After `_`.
    Blank,
    /// In a number after `_`.
    Count,
    /// In bits, by their last digit.
    BitDigits(u8),
    /// After the mark at the end of bits.
    Marked,
    /// After whole bits.
    Closed,
    /// In a hash, by how many digits it has so far.
    Hash(u32),
    /// After the `.` of a hidden part.
    Dot,
    /// After the depth `0`.
    DepthZero,
    /// In another depth.
    DepthDigits,
    /// After a sign.
    Signed,
}

/// The sign that a byte is.
pub(crate) fn sign_at(byte: u8) -> Option<Sign>
    ensures { result ≡ points.sign_at byte }
{
    match byte {
        b'{' => Some(Sign::OpenBrace),
        b'}' => Some(Sign::CloseBrace),
        b'[' => Some(Sign::OpenBracket),
        b']' => Some(Sign::CloseBracket),
        b'(' => Some(Sign::OpenParen),
        b')' => Some(Sign::CloseParen),
        b'<' => Some(Sign::Less),
        b'>' => Some(Sign::Greater),
        b',' => Some(Sign::Comma),
        b':' => Some(Sign::Colon),
        b'~' => Some(Sign::Tilde),
        b'^' => Some(Sign::Caret),
        b'!' => Some(Sign::Bang),
        b'%' => Some(Sign::Percent),
        _ => None,
    }
}

fn is_lower_digit(byte: u8) -> bool
    ensures { result ≡ points.is_lower_digit byte }
{
    byte.is_ascii_digit() || (b'a' <= byte && byte <= b'f')
}

fn begun(byte: u8) -> Option<Spot>
    ensures { result ≡ points.begun byte }
{
    match byte {
        b'-' => Some(Spot::Minus),
        b'0' => Some(Spot::Zero),
        _ if byte.is_ascii_digit() => Some(Spot::Digits),
        b'x' => Some(Spot::X),
        _ if byte.is_ascii_alphabetic() => Some(Spot::Letters),
        b'_' => Some(Spot::Blank),
        b'?' => Some(Spot::Hash(0)),
        _ if sign_at(byte).is_some() => Some(Spot::Signed),
        _ => None,
    }
}

fn numbered(byte: u8) -> Option<Spot>
    ensures { result ≡ points.numbered byte }
{
    match byte {
        b'0' => Some(Spot::Zero),
        _ if byte.is_ascii_digit() => Some(Spot::Digits),
        _ => None,
    }
}

fn in_bits(last: u8, byte: u8) -> Option<Spot>
    ensures { result ≡ points.in_bits last byte }
{
    match byte {
        _ if is_hex_digit(byte) => Some(Spot::BitDigits(byte)),
        b'_' if is_markable(last) => Some(Spot::Marked),
        b'}' => Some(Spot::Closed),
        _ => None,
    }
}

fn in_hash(digits: u32, byte: u8) -> Option<Spot>
    ensures { result ≡ points.in_hash digits byte }
{
    if digits < 64 {
        if is_lower_digit(byte) {
            Some(Spot::Hash(digits + 1))
        } else {
            None
        }
    } else if byte == b'.' {
        Some(Spot::Dot)
    } else {
        None
    }
}

fn deep(byte: u8) -> Option<Spot>
    ensures { result ≡ points.deep byte }
{
    match byte {
        b'0' => Some(Spot::DepthZero),
        _ if byte.is_ascii_digit() => Some(Spot::DepthDigits),
        _ => None,
    }
}

impl Spot {
    /// Where one more byte leads to, if the lexeme can go on with it.
    pub(crate) fn next(self, byte: u8) -> Option<Spot>
        ensures { result ≡ points.next self byte }
    {
        match self {
            Spot::Start => begun(byte),
            Spot::Minus => numbered(byte),
            Spot::Digits if byte.is_ascii_digit() => Some(Spot::Digits),
            Spot::X if byte == b'{' => Some(Spot::BitDigits(b'0')),
            Spot::X | Spot::Letters if is_name_byte(byte) => Some(Spot::Letters),
            Spot::Blank if byte.is_ascii_digit() && byte != b'0' => Some(Spot::Count),
            Spot::Count if byte.is_ascii_digit() => Some(Spot::Count),
            Spot::BitDigits(last) => in_bits(last, byte),
            Spot::Marked if byte == b'}' => Some(Spot::Closed),
            Spot::Hash(digits) => in_hash(digits, byte),
            Spot::Dot => deep(byte),
            Spot::DepthDigits if byte.is_ascii_digit() => Some(Spot::DepthDigits),
            _ => None,
        }
    }

    /// Whether a whole lexeme stands there.
    pub(crate) fn is_end(self) -> bool
        ensures { result ≡ points.is_end self }
    {
        match self {
            Spot::Start
            | Spot::Minus
            | Spot::BitDigits(_)
            | Spot::Marked
            | Spot::Hash(_)
            | Spot::Dot => false,
            Spot::Zero
            | Spot::Digits
            | Spot::X
            | Spot::Letters
            | Spot::Blank
            | Spot::Count
            | Spot::Closed
            | Spot::DepthZero
            | Spot::DepthDigits
            | Spot::Signed => true,
        }
    }
}

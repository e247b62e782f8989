//! Bits as hexadecimal text.
ghost use Rattle.std.specs.Prelude.{◌≡◌, ℕ, ◌+◌, ◌-◌, ◌*◌, ◌/◌, ◌<◌, ◌≤◌, ◌⊎◌, ◌↔◌, ◌++◌, List, length, take};
ghost use Rattle.std.specs.Prelude.{slice_index, true, false, IfOk, IfErr};
ghost use Rattle.bit_slice.specs.Bits.{AreBits, hex_digit, hex_text, HexText, IsBadAt, IsTooLong};
ghost use Rattle.bit_slice.specs.HexLists.{is_hex_digit, digit_number, digit_bits, completed_digit, AreDigits};
ghost use Rattle.bit_slice.specs.HexLists.{IsSpelling};
ghost use Rattle.bit_slice.specs.HexTexts.{spelling_bits};

use crate::bytes::push_byte;
use crate::slice::BitSlice;
use crate::string::BitString;
use crate::writer::BitWriter;
use std::alloc::Global;
use tlb_memory::NoMemory;

/// Why a text gives no bits.
#[derive(Clone, Copy, Debug, PartialEq, Eq)]
pub enum HexTextError {
    /// The byte at this place is the first with which the text cannot go on.
    Bad(u64),
    /// The text is good and spells more than 1023 bits.
    TooLong,
    NoMemory,
}

impl From<NoMemory> for HexTextError {
    ghost use Rattle.std.specs.Prelude.{◌≡◌};
    ghost use Rattle.bit_slice.specs.declared.hex.HexTextError.TheVariants.{NoMemory};

    ghost from_gives = { λ _ e. e ≡ NoMemory };

    fn from(_: NoMemory) -> HexTextError {
        HexTextError::NoMemory
    }
}

/// A text cut into its digits, and how many bits of the last digit it drops.
struct Spelling<'a> {
    digits: &'a [u8],
    dropped: u32,
}

/// Whether the byte is an upper-case hexadecimal digit.
fn is_hex_digit(byte: u8) -> bool
    ensures { result ≡ is_hex_digit byte }
{
    (b'0' <= byte && byte <= b'9') || (b'A' <= byte && byte <= b'F')
}

/// The number of a hexadecimal digit.
fn digit_number(digit: u8) -> u8
    requires { is_hex_digit digit ≡ true }
    ensures number { result ≡ digit_number digit }
    ensures small { result < 16 }
{
    if digit < b'A' {
        digit - b'0'
    } else {
        digit - 55
    }
}

/// The upper-case hexadecimal digit of a number.
fn hex_digit(number: u8) -> u8
    requires { number < 16 }
    ensures { result ≡ hex_digit number }
{
    if number < 10 {
        b'0' + number
    } else {
        55 + number
    }
}

/// With how many digits the text begins.
fn digit_count(text: &[u8]) -> usize
    ensures within { result ≤ length text.now }
    ensures digits { AreDigits (take result text.now) }
    ensures end { result < length text.now → is_hex_digit (slice_index text.now result) ≡ false }
{
    'bytes: for (i, byte) in text.iter().enumerate() {
        if !is_hex_digit(*byte) {
            return i;
        }
    }
    text.len()
}

/// Cuts a good text, or gives the place of the first byte with which it cannot go on.
fn spelling_of(text: &[u8]) -> Result<Spelling<'_>, u64>
    ensures good { IfOk result (λ s. IsSpelling text.now s.digits.now s.dropped) }
    ensures bad { IfErr result (λ place. IsBadAt text.now place) }
{
    let count = digit_count(text);
    if count == text.len() {
        return Ok(Spelling {
            digits: text,
            dropped: 0,
        });
    }
    if text[count] != b'_' || count == 0 {
        return Err(count as u64);
    }
    let dropped = digit_number(text[count - 1]).trailing_zeros() + 1;
    if dropped > 3 {
        return Err(count as u64);
    }
    if count + 1 < text.len() {
        return Err(count as u64 + 1);
    }
    Ok(Spelling {
        digits: &text[..count],
        dropped,
    })
}

/// Adds the bits of the digits.
fn push_digits(writer: &mut BitWriter, digits: &[u8])
    requires digits { AreDigits digits.now }
    requires short { length writer.old + 4 * length digits.now ≤ 1023 }
    ensures { writer.new ≡ writer.old ++ digit_bits digits.now }
{
    'digits: for digit in digits {
        writer.add_number(u128::from(digit_number(*digit)), 4);
    }
}

/// The bits of the digits, without the last `dropped` bits.
fn read_digits(alloc: Global, digits: &[u8], dropped: u32) -> Result<BitString, NoMemory>
    requires digits { AreDigits digits.now }
    requires few { dropped ≤ 3 }
    requires some { 0 < dropped → 0 < length digits.now }
    requires short { 4 * length digits.now ≤ 1023 + dropped }
    ensures { IfOk result (λ b. b ≡ spelling_bits digits.now dropped) }
{
    let mut writer = BitWriter::new(alloc)?;
    if digits.len() == 0 {
        return Ok(writer.finish());
    }
    let front = digits.len() - 1;
    push_digits(&mut writer, &digits[..front]);
    let last = digit_number(digits[front]) >> dropped;
    writer.add_number(u128::from(last), 4 - dropped);
    Ok(writer.finish())
}

impl BitString {
    /// Reads a text of upper-case hexadecimal digits. A `_` at the end drops the last 1 bit of the
    /// last digit and the zeros after it.
    #[tactic(none)]
    pub fn from_hex_text(alloc: Global, text: &[u8]) -> Result<BitString, HexTextError>
        ensures ok { IfOk result (λ b. HexText text.now b) }
        ensures bad { (place : ℕ) → (result ≡ Err (HexTextError.Bad place)) ↔ IsBadAt text.now place }
        ensures too_long { (result ≡ Err HexTextError.TooLong) ↔ IsTooLong text.now }
        ensures back { (b : List ℕ) → HexText text.now b → length b ≤ 1023
            → (result ≡ Ok b) ⊎ (result ≡ Err HexTextError.NoMemory) }
    {
        let Spelling { digits, dropped } = match spelling_of(text) {
            Ok(spelling) => spelling,
            Err(place) => return Err(HexTextError::Bad(place)),
        };
        // Four bits for each digit, less those that are dropped.
        if digits.len() > (1023 + dropped as usize) / 4 {
            return Err(HexTextError::TooLong);
        }
        Ok(read_digits(alloc, digits, dropped)?)
    }
}

impl<'a> BitSlice<'a> {
    /// The number of digit `i` of the bits, completed to whole digits.
    fn completed_digit(&self, i: u32) -> u8
        requires place { i < (length self.now + 3) / 4 }
        requires bits { AreBits self.now }
        ensures number { result ≡ completed_digit self.now i }
        ensures small { result < 16 }
    {
        let byte = self.completed_byte(i / 2);
        if i % 2 == 0 { byte >> 4 } else { byte & 15 }
    }

    /// The bits as upper-case hexadecimal digits. Bits whose number is no multiple of four are
    /// completed by one 1 bit and zeros to a whole digit, and a `_` follows.
    pub fn hex_text(&self, alloc: Global) -> Result<Vec<u8>, NoMemory>
        ensures { IfOk result (λ text. text.items ≡ hex_text self.now) }
    {
        let len = self.len();
        let count = (len + 3) / 4;
        let mut text = Vec::with_capacity(alloc, count as usize + 1)?;
        'digits: for i in 0..count {
            push_byte(&mut text, hex_digit(self.completed_digit(i)))?;
        }
        if len % 4 == 0 {
            return Ok(text);
        }
        push_byte(&mut text, b'_')?;
        Ok(text)
    }
}

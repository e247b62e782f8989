//! Tokens that are written one after another.
ghost use Rattle.std.specs.Prelude.{◌≡◌, ◌++◌, [], ◌∷◌, OnOk, if◌then◌else◌};
ghost use Rattle.value_text.specs.Text.{comes_before, name_of};
ghost use Rattle.value_text.specs.Tokens.{bits, hidden, mark, name, number, spelling, written};

use bit_slice::{BitSlice, BitString, Name};
use std::alloc::Global;
use tlb_memory::NoMemory;
use typed_value::{Hidden, Number};

pub(crate) fn put_byte(text: &mut Vec<u8>, byte: u8) -> Result<(), NoMemory>
    ensures { OnOk result (text.new.items ≡ text.old.items ++ byte ∷ []) }
{
    match text.push(byte) {
        Ok(()) => Ok(()),
        Err(_) => Err(NoMemory),
    }
}

/// A comma, but for the first of a list.
pub(crate) fn put_comma(text: &mut Vec<u8>, is_first: bool) -> Result<(), NoMemory>
    ensures { OnOk result (text.new.items ≡ text.old.items ++ (if is_first then [] else 44 ∷ [])) }
{
    if !is_first {
        put_byte(text, b',')?;
    }
    Ok(())
}

pub(crate) fn put_name(text: &mut Vec<u8>, name: &Option<Name>) -> Result<(), NoMemory>
    ensures { OnOk result (text.new.items ≡ text.old.items ++ written (name_of name.now)) }
{
    if let Some(name) = name {
        text.extend_from_slice(name.text())?;
    }
    Ok(())
}

/// A field's name and its colon.
pub(crate) fn put_label(text: &mut Vec<u8>, label: &Name) -> Result<(), NoMemory>
    ensures { OnOk result (text.new.items ≡ text.old.items ++ written (name label.now ∷ mark 58 ∷ [])) }
{
    text.extend_from_slice(label.text())?;
    put_byte(text, b':')?;
    Ok(())
}

/// A key and its colon.
pub(crate) fn put_key(alloc: Global, text: &mut Vec<u8>, key: &BitString) -> Result<(), NoMemory>
    ensures { OnOk result (text.new.items ≡ text.old.items ++ written (bits key.now ∷ mark 58 ∷ [])) }
{
    put_bits(alloc, text, key.slice())?;
    put_byte(text, b':')?;
    Ok(())
}

pub(crate) fn put_number(alloc: Global, text: &mut Vec<u8>, shown: Number) -> Result<(), NoMemory>
    ensures { OnOk result (text.new.items ≡ text.old.items ++ spelling (number shown.negative shown.size)) }
{
    if shown.negative {
        put_byte(text, b'-')?;
    }
    let digits = format!(in alloc; "{}", shown.size)?;
    text.extend_from_slice(digits.as_bytes())?;
    Ok(())
}

pub(crate) fn put_bits(
    alloc: Global,
    text: &mut Vec<u8>,
    shown: BitSlice<'_>,
) -> Result<(), NoMemory>
    ensures { OnOk result (text.new.items ≡ text.old.items ++ spelling (bits shown.entry)) }
{
    let digits = shown.hex_text(alloc)?;
    text.extend_from_slice(b"x{")?;
    text.extend_from_slice(digits.as_slice())?;
    put_byte(text, b'}')?;
    Ok(())
}

pub(crate) fn put_hidden(alloc: Global, text: &mut Vec<u8>, shown: &Hidden) -> Result<(), NoMemory>
    ensures { OnOk result (text.new.items ≡ text.old.items ++ spelling (hidden shown.now)) }
{
    put_byte(text, b'?')?;
    let hash = hex::encode(alloc, shown.hash)?;
    text.extend_from_slice(hash.as_bytes())?;
    put_byte(text, b'.')?;
    let depth = format!(in alloc; "{}", shown.depth)?;
    text.extend_from_slice(depth.as_bytes())?;
    Ok(())
}

/// Whether the bits `a` come before the bits `b` in order: the first bit that differs decides, and what ends comes
/// first.
pub(crate) fn comes_before(a: BitSlice<'_>, b: BitSlice<'_>) -> bool
    ensures { result ≡ comes_before a.entry b.entry }
{
    let most = a.len().min(b.len());
    'bits: for i in 0..most {
        let mine = a.known_bit(i);
        if mine != b.known_bit(i) {
            return !mine;
        }
    }
    a.len() < b.len()
}

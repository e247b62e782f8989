//! The raw bytes of the two text forms.
ghost use Rattle.std.specs.Prelude.{◌≡◌, ◌≤◌, length, Ok, Err};
ghost use Rattle.bag_cells.specs.Form.{is_white, trimmed, raw_of_hex, raw_of_base64};
ghost use Rattle.bag_cells.specs.Bag.{IfAnswered};
ghost use Rattle.bag_cells.specs.Known.{ends_white};

use crate::error::BagError;
use base64::DecodeAllocError;
use base64::engine::general_purpose::STANDARD;
use hex::FromHexError;
use std::alloc::Global;

fn is_white(byte: u8) -> bool
    ensures { result ≡ is_white byte }
{
    byte == b' ' || byte == b'\t' || byte == b'\r' || byte == b'\n'
}

// Whether white space stands before the place.
fn ends_white(text: &[u8], end: usize) -> bool
    requires { end ≤ length text.now }
    ensures { result ≡ ends_white text.now end }
{
    end > 0 && is_white(text[end - 1])
}

/// The text without the white space at its end.
pub(crate) fn trimmed(text: &[u8]) -> &[u8]
    ensures { result.now ≡ trimmed text.now }
{
    let mut end = text.len();
    'white: while ends_white(text, end) {
        end -= 1;
    }
    &text[..end]
}

/// The bytes that hexadecimal digits of either case spell.
#[tactic(auto, unfolding(crate::specs::Form::raw_of_hex))]
pub(crate) fn raw_of_hex(alloc: Global, text: &[u8]) -> Result<Vec<u8>, BagError>
    ensures { IfAnswered result (λ raw. raw_of_hex text.now ≡ Ok raw.items) (λ e. raw_of_hex text.now ≡ Err e) }
{
    match hex::decode(alloc, text) {
        Ok(raw) => Ok(raw),
        Err(FromHexError::InvalidHexCharacter { c: _, index }) => {
            Err(BagError::BadHex(index as u64))
        }
        Err(FromHexError::OddLength) => Err(BagError::BadHex(text.len() as u64)),
        Err(FromHexError::InvalidStringLength) => Err(BagError::BadHex(text.len() as u64)),
        Err(FromHexError::OutOfMemory) => Err(BagError::NoMemory),
    }
}

/// The bytes that padded standard base64 spells.
#[tactic(auto, unfolding(crate::specs::Form::raw_of_base64))]
pub(crate) fn raw_of_base64(alloc: Global, text: &[u8]) -> Result<Vec<u8>, BagError>
    ensures { IfAnswered result (λ raw. raw_of_base64 text.now ≡ Ok raw.items) (λ e. raw_of_base64 text.now ≡ Err e) }
{
    match STANDARD.decode(alloc, text) {
        Ok(raw) => Ok(raw),
        Err(DecodeAllocError::DecodeError(_)) => Err(BagError::BadBase64),
        Err(DecodeAllocError::OutOfMemory) => Err(BagError::NoMemory),
    }
}

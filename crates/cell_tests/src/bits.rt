//! Texts of bits, and bits that are written and read.
use bit_slice::{BitSlice, BitString, BitWriter, HexTextError};
use std::alloc::Global;
use std::process::Abort;

/// The bits that a hexadecimal text spells.
pub(crate) fn bits(rt: &impl Abort, alloc: Global, text: &str) -> BitString {
    BitString::from_hex_text(alloc, text.as_bytes())
        .ok()
        .expect(rt, "bits")
}

/// Whether a hexadecimal text spells these bits.
pub(crate) fn shows(rt: &impl Abort, alloc: Global, slice: BitSlice<'_>, text: &str) -> bool {
    slice.hex_text(alloc).expect(rt, "memory").as_slice() == text.as_bytes()
}

// A text, the number of its bits, and their first byte, completed.
static TEXTS: [(&str, u32, u8); 6] = [
    ("C_", 1, 0xc0),
    ("2_", 2, 0x20),
    ("A_", 2, 0xa0),
    ("D2C_", 9, 0xd2),
    ("0201_", 15, 0x02),
    ("FF00", 16, 0xff),
];

#[test]
fn texts_spell_bits(rt: HostRuntime) {
    for (text, len, byte) in TEXTS.iter() {
        let found = bits(&rt, rt.alloc(), text);
        assert!(rt; found.slice().len() == *len && *len > 0, "at {text}");
        assert!(rt; found.slice().completed_byte(0) == *byte, "at {text}");
        assert!(rt; shows(&rt, rt.alloc(), found.slice(), text), "at {text}");
    }
}

static REFUSED: [(&str, u64); 8] = [
    ("_", 0),
    ("8_", 1),
    ("0_", 1),
    ("d2", 0),
    ("DAc", 2),
    ("D2C_1", 4),
    ("D2C__", 4),
    ("A ", 1),
];

#[test]
fn texts_are_refused_at_their_first_bad_byte(rt: HostRuntime) {
    for (text, place) in REFUSED.iter() {
        let found = BitString::from_hex_text(rt.alloc(), text.as_bytes()).err();
        assert!(rt; found == Some(HexTextError::Bad(*place)), "at {text}");
    }
}

#[test]
fn bits_are_written(rt: HostRuntime) {
    let mut writer = BitWriter::new(rt.alloc()).expect(&rt, "memory");
    writer.push_number(5, 3).expect(&rt, "room");
    writer.push_number(165, 8).expect(&rt, "room");
    writer.push_signed(-3, 4).expect(&rt, "room");
    assert!(rt; writer.len() == 15);
    // 101 10100101 1101
    assert!(rt; shows(&rt, rt.alloc(), writer.finish().slice(), "B4BB_"));
}

#[test]
fn bits_are_read(rt: HostRuntime) {
    let bits = bits(&rt, rt.alloc(), "B4BB_");
    let (first, rest) = bits.slice().take(3).expect(&rt, "bits");
    assert!(rt; first.number(3) == Some(5) && first.signed(1) == Some(-1));
    assert!(rt; first.bit(1) == Some(false) && first.bit(3).is_none());
    assert!(rt; rest.number(8) == Some(165) && rest.signed(8) == Some(-91));
    assert!(rt; rest.signed(0) == Some(0) && rest.number(13).is_none());
    assert!(rt; rest.again().len() == 12 && rest.known_bit(0));
    assert!(rt; bits.slice().begins_with(first) && !bits.slice().begins_with(rest));
}

#[test]
fn copies_are_the_same(rt: HostRuntime) {
    let bytes = BitString::from_bytes(rt.alloc(), b"\xA5\xDF", 12).expect(&rt, "memory");
    let copy = BitString::from_slice(rt.alloc(), bytes.slice()).expect(&rt, "memory");
    assert!(rt; bytes.slice().same(copy.slice()));
    assert!(rt; shows(&rt, rt.alloc(), copy.slice(), "A5D"));
}

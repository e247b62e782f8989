//! Tokens, and what they stand for.
ghost use Rattle.std.specs.Prelude.{◌≤◌, length};
ghost use Rattle.tlb_syntax.specs.Placed.{IsSpelled};

use std::alloc::Global;
use tlb_lexer::{Token, TokenKind, tokens};
use tlb_syntax::{Lexeme, Sign, has_tag_bits, lexeme_at, tag_bits};

// A text, and below it a letter for each byte of a token: the letter of its kind, in upper case where it begins.
static TOKENS: [(&str, &str); 18] = [
    (
        "ab_9 _ 042 $_ $01 #_ #cA4 #0201_ # ## #< #<= : ; = ( ) { } [ ] ^ ~ ? . * + < <= > >= !",
        "Nnnn B Ddd Tt Ttt Hh Hhhh Hhhhhh S Ss Ss Sss S S S S S S S S S S S S S S S S Ss S Ss S",
    ),
    (
        "_abc a/**/b//c\rd\n1/*/ 2*/3\t$1 0#__#<=#8_#<>==$_0",
        "BNnn N    N      D       D Tt DHhBSssHhhSsSsSTtD",
    ),
    ("", ""),
    ("ab", "Nn"),
    ("12", "Dd"),
    ("_", "B"),
    ("$0", "Tt"),
    ("#c", "Hh"),
    ("#c_", "Hhh"),
    ("#", "S"),
    ("##", "Ss"),
    ("#<", "Ss"),
    ("#<=", "Sss"),
    ("<", "S"),
    ("<=", "Ss"),
    (">", "S"),
    ("// x", "    "),
    ("/* x */", "       "),
];

fn letter(kind: TokenKind) -> u8 {
    match kind {
        TokenKind::Name => b'N',
        TokenKind::Blank => b'B',
        TokenKind::Number => b'D',
        TokenKind::BinaryTag => b'T',
        TokenKind::HexTag => b'H',
        TokenKind::Symbol => b'S',
    }
}

fn letter_at(tokens: &[Token], place: usize) -> u8 {
    for token in tokens {
        if place == token.from as usize {
            return letter(token.kind);
        }
        if place > token.from as usize && place < token.to as usize {
            return letter(token.kind).to_ascii_lowercase();
        }
    }
    b' '
}

fn have_letters(tokens: &[Token], letters: &[u8]) -> bool {
    for (place, wanted) in letters.iter().enumerate() {
        if letter_at(tokens, place) != *wanted {
            return false;
        }
    }
    true
}

#[test]
fn tokens_have_their_kinds_and_places(rt: HostRuntime) {
    for (text, letters) in TOKENS.iter() {
        assert!(rt; text.len() <= 1_048_576 && text.len() == letters.len());
        let found = tokens(rt.alloc(), text.as_bytes()).expect(&rt, "tokens");
        assert!(rt;
            have_letters(found.as_slice(), letters.as_bytes()),
            "at {text}"
        );
    }
}

#[test]
fn a_number_may_be_as_long_as_a_text(rt: HostRuntime) {
    let long = vec![in rt.alloc(); b'7'; 1_048_576].expect(&rt, "memory");
    let found = tokens(rt.alloc(), long.as_slice()).expect(&rt, "tokens");
    assert!(rt; found.len() == 1 && letter_at(found.as_slice(), 1_048_575) == b'd');
}

// Each symbol.
static SIGNS: [(&str, Sign); 24] = [
    ("#", Sign::Hash),
    ("##", Sign::HashHash),
    ("#<", Sign::HashLess),
    ("#<=", Sign::HashLessEqual),
    (":", Sign::Colon),
    (";", Sign::Semicolon),
    ("=", Sign::Equal),
    ("(", Sign::OpenParen),
    (")", Sign::CloseParen),
    ("{", Sign::OpenBrace),
    ("}", Sign::CloseBrace),
    ("[", Sign::OpenBracket),
    ("]", Sign::CloseBracket),
    ("^", Sign::Caret),
    ("~", Sign::Tilde),
    ("?", Sign::Question),
    (".", Sign::Dot),
    ("*", Sign::Asterisk),
    ("+", Sign::Plus),
    ("<", Sign::Less),
    ("<=", Sign::LessEqual),
    (">", Sign::Greater),
    (">=", Sign::GreaterEqual),
    ("!", Sign::Bang),
];

// Whether the first token of a text stands for the lexeme.
fn stands_for(alloc: Global, text: &[u8], lexeme: Lexeme<'_>) -> bool
    requires { length text.now ≤ 1048576 }
{
    match tokens(alloc, text) {
        Ok(found) => match found.as_slice().first() {
            Some(token) => lexeme_at(text, token) == lexeme,
            None => false,
        },
        Err(_) => false,
    }
}

#[test]
fn symbols_are_told_apart(rt: HostRuntime) {
    for (text, sign) in SIGNS.iter() {
        assert!(rt; text.len() <= 1_048_576 && sign.text() == text.as_bytes());
        assert!(rt;
            stands_for(rt.alloc(), text.as_bytes(), Lexeme::Sign(*sign)),
            "at {text}"
        );
    }
}

static NUMBERS: [(&str, Option<u32>); 8] = [
    ("0", Some(0)),
    ("042", Some(42)),
    ("0000000000000000000000007", Some(7)),
    ("4294967295", Some(4_294_967_295)),
    ("4294967296", None),
    ("4294967300", None),
    ("9999999999", None),
    ("00018446744073709551617", None),
];

#[test]
fn numbers_are_below_two_to_the_32(rt: HostRuntime) {
    for (text, number) in NUMBERS.iter() {
        assert!(rt; text.len() <= 1_048_576);
        assert!(rt;
            stands_for(rt.alloc(), text.as_bytes(), Lexeme::Number(*number)),
            "at {text}"
        );
    }
}

#[test]
fn names_and_tags_keep_their_bytes(rt: HostRuntime) {
    assert!(rt; stands_for(rt.alloc(), b"hm_edge", Lexeme::Name(b"hm_edge")));
    assert!(rt; stands_for(rt.alloc(), b"_", Lexeme::Blank));
    assert!(rt; stands_for(rt.alloc(), b"$_", Lexeme::BinaryTag(b"_")));
    assert!(rt; stands_for(rt.alloc(), b"#cA4_", Lexeme::HexTag(b"cA4_")));
}

// Whether a tag has bits, which are given as a hexadecimal text, or none.
fn has_bits(alloc: Global, tag: &Lexeme<'_>, text: Option<&str>) -> bool
    requires { IsSpelled tag.now }
{
    if has_tag_bits(tag) != text.is_some() {
        return false;
    }
    match (tag_bits(alloc, tag), text) {
        (Ok(Some(bits)), Some(text)) => match bits.slice().hex_text(alloc) {
            Ok(found) => found.as_slice() == text.as_bytes(),
            Err(_) => false,
        },
        (Ok(None), None) => true,
        _ => false,
    }
}

#[test]
fn binary_tags_have_bits(rt: HostRuntime) {
    let alloc = rt.alloc();
    assert!(rt; has_bits(alloc, &Lexeme::BinaryTag(b"_"), Some("")));
    assert!(rt; has_bits(alloc, &Lexeme::BinaryTag(b"1010"), Some("A")));
    assert!(rt; has_bits(alloc, &Lexeme::Blank, None));
}

#[test]
fn hexadecimal_tags_have_bits(rt: HostRuntime) {
    let alloc = rt.alloc();
    assert!(rt; has_bits(alloc, &Lexeme::HexTag(b"c4"), Some("C4")));
    assert!(rt; has_bits(alloc, &Lexeme::HexTag(b"0201_"), Some("0201_")));
    assert!(rt; has_bits(alloc, &Lexeme::HexTag(b"fA00_"), Some("FA_")));
    assert!(rt; has_bits(alloc, &Lexeme::HexTag(b"8_"), Some("")));
    assert!(rt; has_bits(alloc, &Lexeme::HexTag(b"0_"), None));
}

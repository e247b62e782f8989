//! What stands before a text.
ghost use Rattle.std.specs.Prelude.{◌≡◌, ◌<◌, ◌≤◌, length, MatchOption, IfSome, ℕ, List, drop, codes};
ghost use Rattle.tlb_lexer.specs.Tokenization.{OccursAt, OccursFirstAt};
ghost use Rattle.tlb_lexer.specs.Stretch.{IsFirstStretch, Advances, Begins, hash_symbol_len};
ghost use Rattle.tlb_lexer.specs.declared.bytes.Class.TheVariants as classes;

use crate::TokenKind;
use crate::bytes::{Class, Run, class_of, run_len};

const LONGEST_NAME: usize = 127;

/// What stands before a text, with its length in bytes where the text goes on after it.
#[derive(Clone, Copy)]
pub enum Stretch {
    Gap(usize),
    Spelled(TokenKind, usize),
    LongName,
    OpenComment,
    Nothing,
}

fn name(after: &[u8]) -> Stretch
    requires { length after.now < 1048576 }
    ensures { Begins classes.Letter after.now result }
{
    let len = 1 + run_len(after, Run::NameBytes);
    if len > LONGEST_NAME {
        Stretch::LongName
    } else {
        Stretch::Spelled(TokenKind::Name, len)
    }
}

fn number(after: &[u8]) -> Stretch
    requires { length after.now < 1048576 }
    ensures { Begins classes.Digit after.now result }
{
    Stretch::Spelled(TokenKind::Number, 1 + run_len(after, Run::Digits))
}

fn binary_tag(after: &[u8]) -> Stretch
    requires { length after.now < 1048576 }
    ensures { Begins classes.Dollar after.now result }
{
    let bits = run_len(after, Run::Bits);
    if bits > 0 {
        Stretch::Spelled(TokenKind::BinaryTag, 1 + bits)
    } else if after.starts_with(b"_") {
        Stretch::Spelled(TokenKind::BinaryTag, 2)
    } else {
        Stretch::Nothing
    }
}

fn hash_symbol(after: &[u8]) -> usize
    ensures { result ≡ hash_symbol_len after.now }
{
    if after.starts_with(b"#") {
        2
    } else if after.starts_with(b"<=") {
        3
    } else if after.starts_with(b"<") {
        2
    } else {
        1
    }
}

fn hex_tag(after: &[u8]) -> Stretch
    requires { length after.now < 1048576 }
    ensures { Begins classes.NumberSign after.now result }
{
    let digits = run_len(after, Run::HexDigits);
    if after[digits..].starts_with(b"_") {
        Stretch::Spelled(TokenKind::HexTag, digits + 2)
    } else if digits > 0 {
        Stretch::Spelled(TokenKind::HexTag, digits + 1)
    } else {
        Stretch::Spelled(TokenKind::Symbol, hash_symbol(after))
    }
}

// Where the first end of a block comment stands.
fn comment_end(body: &[u8]) -> Option<usize>
    ensures first { MatchOption result ((place : ℕ) → OccursAt (codes "*/") place body.now
        → ⊥) (λ place. OccursFirstAt (codes "*/") place body.now) }
    ensures within { IfSome result (λ place. place < length body.now) }
{
    for place in 0..body.len() {
        if body[place..].starts_with(b"*/") {
            return Some(place);
        }
    }
    None
}

fn block_comment(body: &[u8]) -> Stretch
    requires { length body.now < 1048576 }
    ensures { (text : List ℕ) → OccursAt (codes "/*") 0 text → drop 2 text ≡ body.now → IsFirstStretch text result }
{
    match comment_end(body) {
        Some(place) => Stretch::Gap(place + 4),
        None => Stretch::OpenComment,
    }
}

fn comment(after: &[u8]) -> Stretch
    requires { length after.now < 1048576 }
    ensures { Begins classes.Slash after.now result }
{
    if after.starts_with(b"/") {
        Stretch::Gap(2 + run_len(&after[1..], Run::Line))
    } else if after.starts_with(b"*") {
        block_comment(&after[1..])
    } else {
        Stretch::Nothing
    }
}

fn angle(after: &[u8]) -> Stretch
    ensures { Begins classes.Angle after.now result }
{
    if after.starts_with(b"=") {
        Stretch::Spelled(TokenKind::Symbol, 2)
    } else {
        Stretch::Spelled(TokenKind::Symbol, 1)
    }
}

fn stretch_by(kind: Class, after: &[u8]) -> Stretch
    requires { length after.now < 1048576 }
    ensures { Begins kind after.now result }
{
    match kind {
        Class::White => Stretch::Gap(1),
        Class::Letter => name(after),
        Class::Digit => number(after),
        Class::Underscore => Stretch::Spelled(TokenKind::Blank, 1),
        Class::Dollar => binary_tag(after),
        Class::NumberSign => hex_tag(after),
        Class::Slash => comment(after),
        Class::Angle => angle(after),
        Class::Sign => Stretch::Spelled(TokenKind::Symbol, 1),
        Class::Other => Stretch::Nothing,
    }
}

/// What stands before a text that has not ended.
pub fn first_stretch(text: &[u8]) -> Stretch
    requires not_ended { 0 < length text.now }
    requires within { length text.now ≤ 1048576 }
    ensures first { IsFirstStretch text.now result }
    ensures advances { Advances text.now result }
{
    stretch_by(class_of(text[0]), &text[1..])
}

//! Whether tokens write a schema or a type word. A place counts the tokens before it.
use std::alloc::Global;
use std::process::Abort;
use syntax_check::{Cause, check_schema, check_word};
use tlb_lexer::tokens;

fn schema_verdict(rt: &impl Abort, alloc: Global, text: &[u8]) -> Option<(Cause, u32)> {
    assert!(rt; text.len() <= 1_048_576);
    let found = tokens(alloc, text).expect(rt, "tokens");
    match check_schema(alloc, text, found.as_slice()).expect(rt, "memory") {
        Some(refusal) => Some((refusal.cause, refusal.place)),
        None => None,
    }
}

fn word_verdict(rt: &impl Abort, alloc: Global, text: &[u8]) -> Option<(Cause, u32)> {
    assert!(rt; text.len() <= 1_048_576);
    let found = tokens(alloc, text).expect(rt, "tokens");
    match check_word(alloc, text, found.as_slice()).expect(rt, "memory") {
        Some(refusal) => Some((refusal.cause, refusal.place)),
        None => None,
    }
}

static SCHEMAS: [&str; 25] = [
    "",
    "a = A;",
    "_ = A;",
    "a$_ = A;",
    "a #_ = A;",
    "a$01 x:# y:uint8 _:z = A;",
    "a 5 4294967295 = A;",
    "a x y:z = A;",
    "a {x:#} {y:Type} = A;",
    "a {x = y} {x < 1} {x <= 1} {x > 1} {x >= 1} = A;",
    "a {x * 2 + 3 * y <= ~z} = A;",
    "a {Type = Type} = A;",
    "a x?y n.31?y = A;",
    "a x:y.0?^z = A;",
    "a (x y) [] [x:y [z]] = A;",
    "a (## 3) (#< 4 + #<= 5) = A;",
    "a (## (x + 1)) = A;",
    "a ((((x)))) ~x ^^y = A;",
    "a = A x 3 # (B c) ^D ~e [f];",
    "a = A; a = A; b = B;",
    "a x:(y z ^(u v) [w]) = A;",
    "a (x * 2) = A;",
    "a (2 * x + # * 3) = A;",
    "_ {X:Type} X:X = A X;",
    "Type Type:Type = Type;",
];

#[test]
fn written_schemas_are_taken(rt: HostRuntime) {
    for text in SCHEMAS.iter() {
        assert!(rt;
            schema_verdict(&rt, rt.alloc(), text.as_bytes()).is_none(),
            "at {text}"
        );
    }
}

static WORDS: [&str; 10] = [
    "int32",
    "x y 3 (z u) ^w ~v # [a:b]",
    "## 32",
    "x + y",
    "x * 2 + 3 * y",
    "^x",
    "~x",
    "(x)",
    "[a:b c]",
    "5",
];

#[test]
fn written_type_words_are_taken(rt: HostRuntime) {
    for word in WORDS.iter() {
        assert!(rt;
            word_verdict(&rt, rt.alloc(), word.as_bytes()).is_none(),
            "at {word}"
        );
    }
}

static REFUSED_WORDS: [(&str, u32); 23] = [
    ("", 0),
    ("_", 0),
    ("$_", 0),
    ("{", 0),
    ("=", 0),
    ("4294967296", 0),
    ("x +", 2),
    ("x * 2 * 3", 3),
    ("x = y", 1),
    ("x)", 1),
    ("x;", 1),
    ("x:y", 1),
    ("x?y", 1),
    ("x.1?y", 1),
    ("x _", 1),
    ("x y#_", 2),
    ("x 4294967296", 1),
    ("(x", 2),
    ("##", 1),
    ("## 32 4", 2),
    ("5 x", 1),
    ("^x y", 2),
    ("[x:y] z", 5),
];

#[test]
fn type_words_are_refused_where_nothing_goes_on(rt: HostRuntime) {
    for (word, place) in REFUSED_WORDS.iter() {
        let found = word_verdict(&rt, rt.alloc(), word.as_bytes());
        assert!(rt; found == Some((Cause::Syntax, *place)), "at {word}");
    }
}

// A text, then fragments, each so many times.
type Parts = &'static [(&'static str, u32)];

fn joined(rt: &impl Abort, alloc: Global, parts: Parts) -> Vec<u8> {
    let mut text = Vec::new(alloc);
    for (part, count) in parts {
        for _ in 0..*count {
            text.extend_from_slice(part.as_bytes()).expect(rt, "memory");
        }
    }
    text
}

// Brackets and terms by the hundred thousand; 256 declarations of one type and one more.
static LONG: [(Parts, Option<(Cause, u32)>); 6] = [
    (&[("a x:", 1), ("(", 500_000)], Some((Cause::DeepType, 67))),
    (&[("a x:", 1), ("^", 500_000)], Some((Cause::DeepType, 67))),
    (&[("a", 1), ("[", 500_000)], Some((Cause::DeepType, 65))),
    (&[("a (x", 1), ("+x", 500_000), (")=T;", 1)], None),
    (&[("a = T;", 256)], None),
    (&[("a = T;", 257)], Some((Cause::TooManyConstructors, 1024))),
];

#[test]
fn long_schemas_are_judged_without_recursion(rt: HostRuntime) {
    for (parts, verdict) in LONG.iter() {
        let text = joined(&rt, rt.alloc(), parts);
        assert!(rt; schema_verdict(&rt, rt.alloc(), text.as_slice()) == *verdict);
    }
}

// A type word has the limits of a schema.
static LONG_WORDS: [(Parts, Option<(Cause, u32)>); 4] = [
    (&[("(", 64), ("x", 1), (")", 64)], None),
    (
        &[("(", 65), ("x", 1), (")", 65)],
        Some((Cause::DeepType, 64)),
    ),
    (
        &[("[", 1), (" x", 256), ("]", 1)],
        Some((Cause::TooManyFields, 256)),
    ),
    (&[("x", 1), ("+x", 500_000)], None),
];

#[test]
fn long_type_words_are_judged_without_recursion(rt: HostRuntime) {
    for (parts, verdict) in LONG_WORDS.iter() {
        let word = joined(&rt, rt.alloc(), parts);
        assert!(rt; word_verdict(&rt, rt.alloc(), word.as_slice()) == *verdict);
    }
}

#[test]
fn a_schema_has_at_most_4096_declarations(rt: HostRuntime) {
    let mut text = Vec::new(rt.alloc());
    for letter in b'a'..b'q' {
        for _ in 0..256 {
            text.extend_from_slice(&[b'x', b'=', letter, b';'])
                .expect(&rt, "memory");
        }
    }
    assert!(rt; schema_verdict(&rt, rt.alloc(), text.as_slice()).is_none());
    text.extend_from_slice(b"_").expect(&rt, "memory");
    let found = schema_verdict(&rt, rt.alloc(), text.as_slice());
    assert!(rt; found == Some((Cause::TooManyConstructors, 16_384)));
}

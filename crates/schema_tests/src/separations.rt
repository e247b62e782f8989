//! Schemas whose constructors are told apart, or not, and the leads of constructors.
use crate::texts::schema;
use bit_slice::BitString;
use std::alloc::Global;
use std::process::Abort;
use tag_ambiguity::{TagError, leads, separate};
use tlb_kinds::{Kinded, kind_check};

fn kinded(rt: &impl Abort, alloc: Global, text: &str) -> Kinded {
    kind_check(alloc, schema(rt, alloc, text)).expect(rt, "kinds")
}

// A schema, and how many types and constructors it has.
static SEPARATED: [(&str, u32, u32); 14] = [
    ("", 0, 0),
    ("a = A;", 1, 1),
    ("a$0 = A; b$1 = A; c$_ = B;", 2, 3),
    ("a#0201_ = T; b#02ff = T;", 1, 2),
    ("a#_ x:# = T 0; b#_ {n:#} y:# = T (n + 1);", 1, 2),
    ("a$_ = T 1; b$_ = T 2; c$_ {n:#} = T (n + 3);", 1, 3),
    ("a$0 = A; b$10 = A; _ x:A = T; c$11 = T;", 2, 4),
    ("_ d:(HashmapE 8 Cell) = T; u$_ = U;", 2, 2),
    ("_ [ d:(Hashmap 8 Cell) ] = T; a$_ x:T = U;", 2, 2),
    ("a$10 = A; _ {n:#} {n = 3} x:A = T n; b$00 = T 3;", 2, 3),
    ("a$_ {X:Type} x:X = P X 0; b$_ {X:Type} y:X = P X 1;", 1, 2),
    ("hme_empty$0 {n:#} {X:Type} = HashmapE n X; a$_ = A;", 1, 1),
    ("!ex = A; a = A;", 1, 1),
    ("a$0 = T; b$10 = T; c$110 = T; d$111 = T;", 1, 4),
];

fn counts(rt: &impl Abort, alloc: Global, text: &str) -> (u32, u32) {
    match separate(alloc, kinded(rt, alloc, text)) {
        Ok(accepted) => accepted.counts(),
        Err(_) => (9999, 9999),
    }
}

#[test]
fn separated_schemas_are_accepted(rt: HostRuntime) {
    for (text, types, constructors) in SEPARATED.iter() {
        assert!(rt;
            counts(&rt, rt.alloc(), text) == (*types, *constructors),
            "at {text}"
        );
    }
}

// A schema, and the type and the two constructors that are not told apart.
static AMBIGUOUS: [(&str, &str, &str, &str); 12] = [
    ("a$0 = T; b$01 = T;", "T", "a", "b"),
    ("a$_ {n:#} = T n; b$_ = T 3;", "T", "a", "b"),
    ("a$_ = T; b$1 = T;", "T", "a", "b"),
    ("a$00 = T; b$01 = T; c$0 = T; d$01 = T;", "T", "a", "c"),
    ("a$0 = U; b$1 = T; c$11 = T; d$0 = U;", "U", "a", "d"),
    ("_ = T; _ = T;", "T", "_1", "_2"),
    ("a$_ c:(## 1) x:c?U = T; u$1 = U; b$0 = T;", "T", "a", "b"),
    ("a$10 = A; b$0 = A; _ x:A = T; c$101 = T;", "T", "_1", "c"),
    ("_ d:(HashmapE 8 Cell) = T; u$1 = T;", "T", "_1", "u"),
    ("_ d:(Hashmap 8 Cell) = T; u$111 = T;", "T", "_1", "u"),
    ("a$_ {X:Type} x:X = P X; b$1 {X:Type} = P X;", "P", "a", "b"),
    ("a$_ x:^U = T; u$1 = U; b$0 = T;", "T", "a", "b"),
];

fn is_ambiguous(
    rt: &impl Abort,
    alloc: Global,
    text: &str,
    type_name: &str,
    first: &str,
    second: &str,
) -> bool {
    match separate(alloc, kinded(rt, alloc, text)) {
        Err(TagError::Ambiguous(of, c, d)) => {
            of.text() == type_name.as_bytes()
                && c.text() == first.as_bytes()
                && d.text() == second.as_bytes()
        }
        _ => false,
    }
}

#[test]
fn the_first_pair_that_is_not_told_apart_is_refused(rt: HostRuntime) {
    for (text, of, first, second) in AMBIGUOUS.iter() {
        assert!(rt;
            is_ambiguous(&rt, rt.alloc(), text, of, first, second),
            "at {text}"
        );
    }
}

// The last of these has a tag of 64 bits, and two constructors that are not told apart besides.
static LONG: [&str; 2] = [
    "a#0123456789abcdef = A;",
    "b$0 = B; c$0 = B; a#0123456789abcdef = A;",
];

fn is_too_long(rt: &impl Abort, alloc: Global, text: &str) -> bool {
    match separate(alloc, kinded(rt, alloc, text)) {
        Err(TagError::TagTooLong(of, c)) => of.text() == b"A".as_slice()
            && c.text() == b"a".as_slice(),
        _ => false,
    }
}

#[test]
fn a_tag_of_64_bits_is_refused_first(rt: HostRuntime) {
    for text in LONG.iter() {
        assert!(rt; is_too_long(&rt, rt.alloc(), text), "at {text}");
    }
    assert!(rt; counts(&rt, rt.alloc(), "a#0123456789abcdef_ = A;") == (1, 1));
}

// A schema, the number of a constructor, and how many leads it has.
static LEADS: [(&str, u32, usize); 8] = [
    ("a = A;", 0, 1),
    ("_ d:(Hashmap 8 Cell) = T;", 0, 3),
    ("_ d:(HashmapE 8 Cell) = T;", 0, 2),
    ("a$0 = A; b$10 = A; c$11 = A; _ x:A = T;", 3, 3),
    ("a$0 = A; b$0 = A; _ x:A = T;", 2, 1),
    ("_ x:B = A; _ x:C = B; _ x:D = C; d$0 = D; e$1 = D;", 0, 2),
    ("d$0 = D; e$1 = D; _ x:D = C; _ x:C = B; _ x:B = A;", 4, 2),
    (
        "a$0 = A; b$1 = B; _ x:A = C; _ x:B = C; _ x:C = D; _ d:(Hashmap 8 D) = E;",
        4,
        2,
    ),
];

fn lead_count(rt: &impl Abort, alloc: Global, text: &str, c: u32) -> usize {
    let kinded = kinded(rt, alloc, text);
    assert!(rt; (c as usize) < kinded.schema().constructors.len());
    leads(alloc, &kinded, c).expect(rt, "memory").len()
}

#[test]
fn constructors_have_their_leads(rt: HostRuntime) {
    for (text, c, count) in LEADS.iter() {
        assert!(rt;
            lead_count(&rt, rt.alloc(), text, *c) == *count,
            "at {text}"
        );
    }
}

fn has_digits(alloc: Global, bits: &BitString, digits: &str) -> bool {
    match bits.slice().hex_text(alloc) {
        Ok(text) => text.as_slice() == digits.as_bytes(),
        Err(_) => false,
    }
}

#[test]
fn a_computed_tag_is_the_sum_of_the_text(rt: HostRuntime) {
    let kinded = kinded(&rt, rt.alloc(), "a = A;");
    assert!(rt; kinded.schema().constructors.len() == 1);
    let found = leads(rt.alloc(), &kinded, 0).expect(&rt, "memory");
    assert!(rt; found.len() == 1);
    assert!(rt; has_digits(rt.alloc(), &found.as_slice()[0], "7AAE25B9"));
    let accepted = separate(rt.alloc(), kinded).expect(&rt, "separated");
    let tag = BitString::from_slice(rt.alloc(), accepted.tag(0)).expect(&rt, "memory");
    assert!(rt; has_digits(rt.alloc(), &tag, "7AAE25B9"));
    assert!(rt; accepted.leads(0).len() == 1);
}

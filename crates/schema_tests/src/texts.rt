//! Schemas and type words that are read, and their canonical texts, written by hand.
ghost use Rattle.tlb_syntax.specs.Limits.{IsWithinLimits};
ghost use Rattle.tlb_syntax.specs.View.{schema as schema_view};

use std::alloc::Global;
use std::process::Abort;
use tlb_grammar::{Constructor, Expr, Schema, canonical, read_schema, read_type, show};

/// The schema that a text writes.
pub(crate) fn schema(rt: &impl Abort, alloc: Global, text: &str) -> Schema
    ensures { IsWithinLimits (schema_view result) }
{
    assert!(rt; text.len() <= 1_048_576);
    read_schema(alloc, text.as_bytes()).expect(rt, "a schema")
}

/// The expression that a type word writes.
pub(crate) fn expression(rt: &impl Abort, alloc: Global, word: &str) -> Expr {
    assert!(rt; word.len() <= 1_048_576);
    read_type(alloc, word).expect(rt, "a type word")
}

// A schema, and the canonical text of its last declaration.
static SCHEMAS: [(&str, &str); 24] = [
    ("a = A;", "a = A"),
    ("_ = T;", "_ = T"),
    ("a$101 = T;", "a$101 = T"),
    ("a#4f = T;", "a$01001111 = T"),
    ("a$_ = T x ^y;", "a$_ = T x ^y"),
    ("a$_ = A; // c\nb#c_ x:^Cell = B ;", "b$1 x:^Cell = B"),
    ("a {n:#} {X:Type} = T;", "a {n:#} {X:Type} = T"),
    (
        "a {n = m} {n + 1 <= 2 * m} = T;",
        "a {n = m} {(n + 1) <= (2 * m)} = T",
    ),
    (
        "a {f x > 1} {~n < 1} {n >= 1} = T;",
        "a {(f x) > 1} {~n < 1} {n >= 1} = T",
    ),
    ("a x:b c _:d = T;", "a x:b _:c _:d = T"),
    ("a x:f?b f?c = T;", "a x:f?b _:f?c = T"),
    ("a x:f.3?b f.31?c = T;", "a x:f.3?b _:f.31?c = T"),
    ("a (b c) ^[x:d] [] = T;", "a _:(b c) _:^[ x:d ] _:[ ] = T"),
    (
        "a flags:# a:flags?^Cell flags.31?(#< 4294967295) = T;",
        "a flags:# a:flags?^Cell _:flags.31?(#< 4294967295) = T",
    ),
    (
        "a [x:# {x < 3} {x > 1} {x >= 2}] = T;",
        "a _:[ x:# {x < 3} {x > 1} {x >= 2} ] = T",
    ),
    ("bit$_ _:(## 1) = Bit;", "bit$_ _:(## 1) = Bit"),
    ("bool_true$1 = Bool;", "bool_true$1 = Bool"),
    ("unary_zero$0 = Unary ~0;", "unary_zero$0 = Unary ~0"),
    (
        "unary_succ$1 {n:#} x:(Unary ~n) = Unary ~(n + 1);",
        "unary_succ$1 {n:#} x:(Unary ~n) = Unary ~(n + 1)",
    ),
    (
        "hml_short$0 {m:#} {n:#} len:(Unary ~n) {n <= m} s:(n * Bit) = HmLabel ~n m;",
        "hml_short$0 {m:#} {n:#} len:(Unary ~n) {n <= m} s:(n * Bit) = HmLabel ~n m",
    ),
    (
        "hml_long#a_ {m:#} n:(#<= m) s:(n * Bit) = HmLabel ~n m;",
        "hml_long$10 {m:#} n:(#<= m) s:(n * Bit) = HmLabel ~n m",
    ),
    (
        "hml_same$11 {m:#} v:Bit n:(#<= m) = HmLabel ~n m;",
        "hml_same$11 {m:#} v:Bit n:(#<= m) = HmLabel ~n m",
    ),
    (
        "hm_edge#_ {n:#} {X:Type} {l:#} {m:#} label:(HmLabel ~l n) {n = (~m) + l} node:(HashmapNode m X) = Hashmap n X;",
        "hm_edge$_ {n:#} {X:Type} {l:#} {m:#} label:(HmLabel ~l n) {n = (~m + l)} node:(HashmapNode m X) = Hashmap n X",
    ),
    (
        "hmn_fork#_ {n:#} {X:Type} left:^(Hashmap n X) right:^(Hashmap n X) = HashmapNode (n + 1) X;",
        "hmn_fork$_ {n:#} {X:Type} left:^(Hashmap n X) right:^(Hashmap n X) = HashmapNode (n + 1) X",
    ),
];

fn is_written(rt: &impl Abort, alloc: Global, constructor: &Constructor, text: &str) -> bool {
    canonical(alloc, constructor)
        .expect(rt, "memory")
        .as_slice()
        == text.as_bytes()
}

#[test]
fn declarations_have_their_canonical_texts(rt: HostRuntime) {
    for (text, last) in SCHEMAS.iter() {
        let schema = schema(&rt, rt.alloc(), text);
        let found = schema
            .constructors
            .as_slice()
            .last()
            .expect(&rt, "a declaration");
        assert!(rt; is_written(&rt, rt.alloc(), found, last), "at {text}");
    }
}

// A type word, and the text of its expression.
static WORDS: [(&str, &str); 19] = [
    ("7", "7"),
    ("Unit", "Unit"),
    ("#", "#"),
    ("Maybe uint8", "(Maybe uint8)"),
    ("a b (c d)", "(a b (c d))"),
    ("HashmapE 2 (Maybe ^Cell)", "(HashmapE 2 (Maybe ^Cell))"),
    ("## 8", "(## 8)"),
    ("#< n", "(#< n)"),
    ("#<= n", "(#<= n)"),
    ("~n", "~n"),
    ("^~x", "^~x"),
    ("a + b + c", "((a + b) + c)"),
    ("(a + b) + c", "((a + b) + c)"),
    ("a + (b + c)", "(a + (b + c))"),
    ("a + 2 * b + # + 7", "(((a + (2 * b)) + #) + 7)"),
    ("8 * n + 1", "((8 * n) + 1)"),
    ("3 * ## 5", "(3 * (## 5))"),
    ("(a)", "a"),
    ("[x:a ^b]", "[ x:a _:^b ]"),
];

#[test]
fn type_words_have_their_texts(rt: HostRuntime) {
    for (word, text) in WORDS.iter() {
        let found = expression(&rt, rt.alloc(), word);
        let shown = show(rt.alloc(), &found).expect(&rt, "memory");
        assert!(rt; shown.as_slice() == text.as_bytes(), "at {word}");
    }
}

#[test]
fn a_sum_of_500_000_terms_is_read_and_shown(rt: HostRuntime) {
    let mut word = String::new(rt.alloc());
    word.push_str("1").expect(&rt, "memory");
    for _ in 1..500_000u32 {
        word.push_str("+1").expect(&rt, "memory");
    }
    let found = expression(&rt, rt.alloc(), word.as_str());
    let text = show(rt.alloc(), &found).expect(&rt, "memory");
    // 499,999 opening parentheses, a term, and 499,999 times ` + 1)`
    assert!(rt; text.len() == 2_999_995);
    assert!(rt;
        text.as_slice().starts_with(b"((((((((") && text.as_slice().ends_with(b" + 1) + 1)")
    );
}

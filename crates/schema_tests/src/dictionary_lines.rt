//! The public declarations of dictionaries under names that aren't built in, as `examples/maps.tlb` has them.
use crate::texts::schema;
use std::alloc::Global;
use std::process::Abort;
use tag_ambiguity::separate;
use tlb_grammar::{Constructor, canonical};
use tlb_kinds::kind_check;

static TEXT: &str = "bit$_ (## 1) = Bit;
unary_zero$0 = Unary ~0;
unary_succ$1 {n:#} x:(Unary ~n) = Unary ~(n + 1);
hml_short$0 {m:#} {n:#} len:(Unary ~n) {n <= m} s:(n * Bit) = HmLabel ~n m;
hml_long$10 {m:#} n:(#<= m) s:(n * Bit) = HmLabel ~n m;
hml_same$11 {m:#} v:Bit n:(#<= m) = HmLabel ~n m;
hm_edge#_ {n:#} {X:Type} {l:#} {m:#} label:(HmLabel ~l n)
  {n = (~m) + l} node:(HmNode m X) = Hm n X;
hmn_leaf#_ {X:Type} value:X = HmNode 0 X;
hmn_fork#_ {n:#} {X:Type} left:^(Hm n X)
  right:^(Hm n X) = HmNode (n + 1) X;
hme_empty$0 {n:#} {X:Type} = HmE n X;
hme_root$1 {n:#} {X:Type} root:^(Hm n X) = HmE n X;";

// The canonical texts of the lines: those that the checker computes of the value `lines` of declared_maps.
static LINES: [&str; 11] = [
    "bit$_ _:(## 1) = Bit",
    "unary_zero$0 = Unary ~0",
    "unary_succ$1 {n:#} x:(Unary ~n) = Unary ~(n + 1)",
    "hml_short$0 {m:#} {n:#} len:(Unary ~n) {n <= m} s:(n * Bit) = HmLabel ~n m",
    "hml_long$10 {m:#} n:(#<= m) s:(n * Bit) = HmLabel ~n m",
    "hml_same$11 {m:#} v:Bit n:(#<= m) = HmLabel ~n m",
    "hm_edge$_ {n:#} {X:Type} {l:#} {m:#} label:(HmLabel ~l n) {n = (~m + l)} node:(HmNode m X) = Hm n X",
    "hmn_leaf$_ {X:Type} value:X = HmNode 0 X",
    "hmn_fork$_ {n:#} {X:Type} left:^(Hm n X) right:^(Hm n X) = HmNode (n + 1) X",
    "hme_empty$0 {n:#} {X:Type} = HmE n X",
    "hme_root$1 {n:#} {X:Type} root:^(Hm n X) = HmE n X",
];

fn is_written(rt: &impl Abort, alloc: Global, constructor: &Constructor, text: &str) -> bool {
    canonical(alloc, constructor)
        .expect(rt, "memory")
        .as_slice()
        == text.as_bytes()
}

#[test]
fn the_lines_of_dictionaries_are_the_declared_ones(rt: HostRuntime) {
    let schema = schema(&rt, rt.alloc(), TEXT);
    assert!(rt; schema.constructors.len() == LINES.len());
    for (constructor, line) in schema.constructors.as_slice().iter().zip(LINES.iter()) {
        assert!(rt; is_written(&rt, rt.alloc(), constructor, line), "at {line}");
    }
}

#[test]
fn the_lines_of_dictionaries_are_accepted(rt: HostRuntime) {
    let kinded = kind_check(rt.alloc(), schema(&rt, rt.alloc(), TEXT)).expect(&rt, "kinds");
    let accepted = separate(rt.alloc(), kinded).expect(&rt, "separated constructors");
    assert!(rt; accepted.counts() == (6, 11));
}

//! Schemas that pass the rules on kinds and the guard, and the items that the guard finds.
use crate::texts::schema;
use kind_declarations::judge_heading;
use kind_terms::{Shown, Types, add_variable, inputs, is_unnamed, show_item};
use sqlite_items::Items;
use std::alloc::Global;
use std::process::Abort;
use tlb_guard::first_unguarded;
use tlb_kinds::kind_check;

// A schema, and how many of its declarations are kept: those of dictionaries are not.
static PASSED: [(&str, usize); 11] = [
    ("", 0),
    ("a$_ c:(## 1) x:c?A = A;", 1),
    ("a$0 x:A = A;", 1),
    ("a x:A = A;", 1),
    ("a$_ x:^A = A;", 1),
    ("a$_ n:(#< 2) x:A = A;", 1),
    ("p$_ {X:Type} n:# v:X = P X; a$_ x:(P A) = A;", 2),
    (
        "unary_zero$0 = Unary ~0; unary_succ$1 {n:#} x:(Unary ~n) = Unary ~(n + 1);",
        2,
    ),
    ("hmn_leaf#_ {X:Type} value:X = HashmapNode 0 X; a = A;", 1),
    (
        "hme_empty$0 {n:#} {X:Type} = HashmapE n X; hme_root$1 {n:#} {X:Type} root:^(Hashmap n X) = HashmapE n X;",
        0,
    ),
    ("a$_ x:(HashmapE 32 uint8) y:(Hashmap 1023 A) = A;", 1),
];

fn kept(rt: &impl Abort, alloc: Global, text: &str) -> usize {
    match kind_check(alloc, schema(rt, alloc, text)) {
        Ok(kinded) => kinded.schema().constructors.len(),
        Err(_) => 4097,
    }
}

#[test]
fn schemas_pass_without_their_lines_of_dictionaries(rt: HostRuntime) {
    for (text, count) in PASSED.iter() {
        assert!(rt; kept(&rt, rt.alloc(), text) == *count, "at {text}");
    }
}

// A schema, and the places of a constructor and of its item through which a type exposes itself.
static CYCLES: [(&str, Option<(usize, usize)>); 9] = [
    ("a$_ x:T = T;", Some((0, 0))),
    ("p$_ {X:Type} v:X = P X; a$_ x:(P A) = A;", Some((1, 0))),
    ("a$_ n:(#< 1) x:A = A;", Some((0, 1))),
    ("a$_ n:(uint (4 + 4)) x:A = A;", Some((0, 1))),
    ("a$_ x:B = A; b$_ y:C = B; c$_ z:A = C;", Some((0, 0))),
    ("a$_ x:B = A; b$_ y:C = B; c$_ z:C = C;", Some((2, 0))),
    ("e$_ = E; a$_ x:E y:E z:A = A;", Some((1, 2))),
    ("a$0 x:A = A;", None),
    ("p$_ {X:Type} n:# v:X = P X; a$_ x:(P A) = A;", None),
];

fn first_cycle(rt: &impl Abort, alloc: Global, text: &str) -> Option<(usize, usize)> {
    let schema = schema(rt, alloc, text);
    match first_unguarded(alloc, schema.constructors.as_slice()).expect(rt, "memory") {
        Some(found) => Some((found.constructor, found.item)),
        None => None,
    }
}

#[test]
fn the_first_item_on_a_cycle_is_found(rt: HostRuntime) {
    for (text, place) in CYCLES.iter() {
        assert!(rt; first_cycle(&rt, rt.alloc(), text) == *place, "at {text}");
    }
}

#[test]
fn a_heading_has_its_inputs(rt: HostRuntime) {
    let schema = schema(&rt, rt.alloc(), "some {X:Type} value:X = Maybe X;");
    let some = schema.constructors.as_slice().first().expect(&rt, "one");
    let types = Types::new(rt.alloc());
    assert!(rt; judge_heading(rt.alloc(), &types, some).is_ok());
    let mut names = inputs(rt.alloc(), some).expect(&rt, "memory");
    let param = some.params.as_slice().first().expect(&rt, "one");
    add_variable(&mut names, param).expect(&rt, "memory");
    assert!(rt; names.len() == 2);
}

#[test]
fn items_are_shown_by_their_names_or_places(rt: HostRuntime) {
    let schema = schema(&rt, rt.alloc(), "a x:# # = A;");
    let a = schema.constructors.as_slice().first().expect(&rt, "one");
    let named = a.items.as_slice().first().expect(&rt, "an item");
    let blank = a.items.as_slice().last().expect(&rt, "an item");
    assert!(rt; !is_unnamed(named) && is_unnamed(blank));
    assert!(rt; matches!(show_item(named, 0, 0), Shown::Named(_)));
    assert!(rt; matches!(show_item(blank, 1, 0), Shown::Unnamed(0)));
}

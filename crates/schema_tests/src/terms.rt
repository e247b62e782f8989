//! What the rules on kinds speak of: names of the language, forms of expressions, kinds, types, scopes.
use crate::texts::{expression, schema};
use kind_terms::{
    Family, GREATEST, Meaning, Sort, TermKind, Types, WordClass, add_known, bare_name, closed,
    declares, field_name, has_outputs, is_among, is_beyond, is_built_in, is_dictionary,
    is_field_of_numbers, is_literal, is_of_numbers, is_out, is_wide, kind_of, kinds, meaning_in,
    no_type, out_name, sought, variable_of, word_class,
};
use sqlite_items::Items;
use tlb_grammar::{FieldType, Op};

#[test]
fn names_of_the_language(rt: HostRuntime) {
    assert!(rt; Family::Uint.has_width(b"uint0") && !Family::Uint.has_some_width(b"uint0"));
    assert!(rt; Family::Bits.has_some_width(b"bits1") && Family::Int.is_wider(7, b"int8"));
    assert!(rt; is_wide(b"uint257") && !is_wide(b"uint256") && Family::Int.widest() == 257);
    assert!(rt; is_built_in(b"Type") && is_built_in(b"uint0") && !is_built_in(b"uint00"));
    assert!(rt; is_dictionary(b"HashmapNode") && word_class(b"HashmapE") == WordClass::HashmapE);
    assert!(rt; word_class(b"int") == WordClass::Sized(Family::Int));
}

#[test]
fn forms_of_expressions(rt: HostRuntime) {
    let name = expression(&rt, rt.alloc(), "n");
    let out = expression(&rt, rt.alloc(), "~n");
    let sum = expression(&rt, rt.alloc(), "n + 2");
    let literal = expression(&rt, rt.alloc(), "7");
    assert!(rt; bare_name(&name).is_some() && out_name(&out).is_some());
    assert!(rt; variable_of(&sum).is_some() && is_out(&out) && is_literal(&literal));
    assert!(rt; is_of_numbers(&expression(&rt, rt.alloc(), "#<= 5")) && !is_of_numbers(&name));
}

#[test]
fn values_of_numbers(rt: HostRuntime) {
    let product = expression(&rt, rt.alloc(), "2 * (4 + 5)");
    assert!(rt; closed(&product) == Some(18));
    assert!(rt; is_beyond(&product, 17) && !is_beyond(&product, 18));
}

#[test]
fn unknowns_of_equations(rt: HostRuntime) {
    let left = expression(&rt, rt.alloc(), "n");
    let sum = expression(&rt, rt.alloc(), "~m + l");
    let cancelled = expression(&rt, rt.alloc(), "0 * ~m");
    assert!(rt; sought(&left, Op::Eq, &sum).is_some());
    assert!(rt; sought(&left, Op::Le, &sum).is_none());
    assert!(rt; sought(&left, Op::Eq, &cancelled).is_none());
}

#[test]
fn kinds_of_parameters(rt: HostRuntime) {
    let schema = schema(&rt, rt.alloc(), "a {X:Type} = T X 3 ~2;");
    let first = schema.constructors.as_slice().first().expect(&rt, "one");
    let found = kinds(rt.alloc(), first).expect(&rt, "memory");
    let wanted = [
        TermKind::TypeIn,
        TermKind::NumberIn(GREATEST),
        TermKind::NumberOut,
    ];
    assert!(rt; found.as_slice() == wanted.as_slice() && has_outputs(found.as_slice()));
    let param = expression(&rt, rt.alloc(), "X");
    assert!(rt; kind_of(first.items.as_slice(), &param) == TermKind::TypeIn);
    assert!(rt; TermKind::NumberIn(1).is_same(TermKind::NumberIn(2)));
}

const UNARY: &str =
    "unary_zero$0 = Unary ~0; unary_succ$1 {n:#} x:(Unary ~n) k:# = Unary ~(n + 1);";

#[test]
fn types_of_a_schema(rt: HostRuntime) {
    let schema = schema(&rt, rt.alloc(), UNARY);
    let types = Types::of(rt.alloc(), schema.constructors.as_slice()).expect(&rt, "memory");
    let declared = types.declared(b"Unary").expect(&rt, "a type");
    assert!(rt; declared.constructors.len() == 2);
    let unary = types.named(b"Unary", true);
    assert!(rt; unary.sort == Sort::Declared && unary.parameters().len() == 1);
    assert!(rt; types.named(b"Unary1", false).sort == no_type().sort);
    assert!(rt; types.named(b"uint", true).sort == Sort::Basic);
}

#[test]
fn types_grow_by_a_declaration(rt: HostRuntime) {
    let schema = schema(&rt, rt.alloc(), UNARY);
    let first = schema.constructors.as_slice().first().expect(&rt, "one");
    let types = Types::new(rt.alloc());
    assert!(rt; types.declared(b"Unary").is_none());
    let types = types.with(rt.alloc(), first).expect(&rt, "memory");
    assert!(rt; types.declared(b"Unary").is_some());
}

#[test]
fn what_items_declare_and_make_known(rt: HostRuntime) {
    let schema = schema(&rt, rt.alloc(), UNARY);
    let last = schema.constructors.as_slice().last().expect(&rt, "one");
    let types = Types::of(rt.alloc(), schema.constructors.as_slice()).expect(&rt, "memory");
    let mut known = Items::new(rt.alloc());
    let mut scope = Items::new(rt.alloc());
    for item in last.items.as_slice() {
        add_known(&types, &[], item, &mut known).expect(&rt, "memory");
        let entry = declares(item).expect(&rt, "a name");
        scope.push(entry).ok().expect(&rt, "memory");
    }
    assert!(rt; known.len() == 2 && scope.len() == 3);
    let k = last.items.as_slice().last().expect(&rt, "an item");
    let name = field_name(k).expect(&rt, "a name");
    assert!(rt; is_among(known.as_slice(), name));
    assert!(rt; meaning_in(scope.as_slice(), name) == Some(Meaning::FieldNumber));
    assert!(rt; Meaning::FieldNumber.is_number());
}

#[test]
fn fields_of_numbers(rt: HostRuntime) {
    let plain = FieldType::Plain(expression(&rt, rt.alloc(), "## 5"));
    assert!(rt; is_field_of_numbers(&plain));
}

//! Flat forms of schemas: the forms of operations, types and arguments in their lists.
use crate::texts::schema;
use flat_form::{Flat, PlanArg, PlanOp, TypeNode};
use plan_compile::{CompiledSchema, compile_constructors};
use std::alloc::Global;
use std::process::Abort;

// A schema, and the operations in the list: those of the records in a record come before its own.
static OPERATIONS: [(&str, &[&str]); 5] = [
    (
        "c$_ f:(## 2) v:f?uint8 w:f.1?uint8 = C;",
        &["Field", "When", "Field", "When", "Field"],
    ),
    (
        "t$_ {m:#} n:(## 4) l:(## 4) {n = (~m) + l} x:(uint m) = T;",
        &["Field", "Field", "Solve", "Field"],
    ),
    (
        "o$_ a:# b:(## 1) {a + 1 >= b} = O;",
        &["Field", "Field", "Check"],
    ),
    (
        "g$_ {n:#} a:n?[ {1 = 1} x:# ] b:^[ y:# ] = G n;",
        &["Check", "Field", "Field", "When", "Field", "Field"],
    ),
    ("a = A; b$_ = B;", &[]),
];

// A schema, and the types in the list: a type comes after its parts.
static TYPES: [(&str, &[&str]); 8] = [
    (
        "a$_ x:# y:(## 5) z:(#< 6) w:(#<= 7) = A;",
        &["Nat32", "Bits", "Below", "UpTo"],
    ),
    (
        "a$_ x:(uint 5) y:int8 z:bits9 w:Any v:Cell = A;",
        &["Uint", "Int", "BitStr", "Whole", "Whole"],
    ),
    (
        "a$_ x:^Cell y:(3 * ^Any) = A;",
        &["Whole", "Ref", "Whole", "Ref", "Repeat"],
    ),
    (
        "a$_ x:(Hashmap 3 uint8) y:(HashmapE 4 ^A) = A;",
        &["Uint", "Dict", "Named", "Ref", "DictE"],
    ),
    ("p$_ {X:Type} v:X = P X;", &["Variable"]),
    (
        "p$0 {X:Type} {n:#} = P X n; a$_ y:(P ^Any 7) = A;",
        &["Whole", "Ref", "Named"],
    ),
    ("u$0 = U ~0; v$1 {n:#} x:(U ~n) = U ~(n + 1);", &["Named"]),
    (
        "g$_ a:[ x:# y:[ ] ] b:^[ z:# ] = G;",
        &["Nat32", "Group", "Group", "Nat32", "Group", "Ref"],
    ),
];

// A schema, and the arguments in the list.
static ARGUMENTS: [(&str, &[&str]); 2] = [
    (
        "p$0 {X:Type} {n:#} = P X n; a$_ y:(P ^Any 7) = A;",
        &["Ty", "Nat"],
    ),
    ("u$0 = U ~0; v$1 {n:#} x:(U ~n) = U ~(n + 1);", &["Out"]),
];

fn operation_form(op: &PlanOp) -> &'static str {
    match op {
        PlanOp::Check(_, _, _, _) => "Check",
        PlanOp::Solve(_, _, _, _) => "Solve",
        PlanOp::When(_, _) => "When",
        PlanOp::Field(_, _, _) => "Field",
    }
}

fn type_form(node: &TypeNode) -> &'static str {
    match node {
        TypeNode::Nat32 => "Nat32",
        TypeNode::Bits(_) => "Bits",
        TypeNode::Below(_) => "Below",
        TypeNode::UpTo(_) => "UpTo",
        TypeNode::Uint(_) => "Uint",
        TypeNode::Int(_) => "Int",
        TypeNode::BitStr(_) => "BitStr",
        TypeNode::Whole => "Whole",
        TypeNode::Variable(_) => "Variable",
        TypeNode::Ref(_) => "Ref",
        TypeNode::Repeat(_, _) => "Repeat",
        TypeNode::Dict(_, _) => "Dict",
        TypeNode::DictE(_, _) => "DictE",
        TypeNode::Named(_, _, _) => "Named",
        TypeNode::Group(_, _) => "Group",
    }
}

fn argument_form(arg: &PlanArg) -> &'static str {
    match arg {
        PlanArg::Nat(_) => "Nat",
        PlanArg::Ty(_) => "Ty",
        PlanArg::Out(_) => "Out",
    }
}

fn compiled(rt: &impl Abort, alloc: Global, text: &str) -> CompiledSchema {
    let schema = schema(rt, alloc, text);
    compile_constructors(alloc, schema.constructors.as_slice()).expect(rt, "memory")
}

#[test]
fn records_are_their_operations(rt: HostRuntime) {
    for (text, forms) in OPERATIONS.iter() {
        let found = compiled(&rt, rt.alloc(), text);
        assert!(rt; found.flat.ops.len() == forms.len(), "at {text}");
        for (op, form) in found.flat.ops.as_slice().iter().zip(*forms) {
            assert!(rt; operation_form(op) == *form, "at {text}");
        }
    }
}

#[test]
fn types_stand_after_their_parts(rt: HostRuntime) {
    for (text, forms) in TYPES.iter() {
        let found = compiled(&rt, rt.alloc(), text);
        assert!(rt; found.flat.types.len() == forms.len(), "at {text}");
        for (node, form) in found.flat.types.as_slice().iter().zip(*forms) {
            assert!(rt; type_form(node) == *form, "at {text}");
        }
    }
}

#[test]
fn arguments_stand_in_order(rt: HostRuntime) {
    for (text, forms) in ARGUMENTS.iter() {
        let found = compiled(&rt, rt.alloc(), text);
        assert!(rt; found.flat.args.len() == forms.len(), "at {text}");
        for (arg, form) in found.flat.args.as_slice().iter().zip(*forms) {
            assert!(rt; argument_form(arg) == *form, "at {text}");
        }
    }
}

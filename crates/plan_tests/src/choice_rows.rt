//! Constructors of a type: which one is entered, which one has a name, and how the one at a place is shown. The answers are
//! worked out by hand; constructors are numbered from 0 in the order of the text.
use crate::texts::plan;
use bit_slice::{BitString, Name, is_name};
use field_plan::{ClosedArg, ClosedType, Plan, resolve};
use sqlite_items::Items;
use std::alloc::Global;
use std::process::Abort;

const SCHEMA: &str =
    "zero$_ = Flag 0; one$_ = Flag 1; none$_ = Count 0; next$_ {n:#} value:(uint n) = Count (n + 1); nothing$0 {X:Type} = Maybe X; just$1 {X:Type} value:X = Maybe X; _$00 = Sort; b$01 = Sort; _$1 = Sort; last$0 {X:Type} = Row X 0; cell$0 {X:Type} {n:#} item:X = Row X (n + 1); low$0 = Mixed; _ d:Deep = Mixed; deep$11 = Deep; tagged = Tagged; every$_ {n:#} = Every n;";

// A name, a word whose arguments are given, the bits that are left as digits, and the constructor that is entered.
static CHOSEN: [(&str, &str, &str, Option<u32>); 27] = [
    ("Flag", "Flag 0", "", Some(0)),
    ("Flag", "Flag 1", "5A", Some(1)),
    ("Flag", "Flag 2", "", None),
    ("Count", "Count 0", "", Some(2)),
    ("Count", "Count 1", "", Some(3)),
    ("Count", "Count 4294967295", "", Some(3)),
    ("Every", "Every 0", "", Some(15)),
    ("Maybe", "Maybe Deep", "4_", Some(4)),
    ("Maybe", "Maybe (Maybe ^Cell)", "FF", Some(5)),
    ("Maybe", "Maybe Deep", "", None),
    ("Sort", "Sort", "2_", Some(6)),
    ("Sort", "Sort", "6_", Some(7)),
    ("Sort", "Sort", "C_", Some(8)),
    ("Sort", "Sort", "4_", None),
    ("Row", "Row Deep 0", "4_", Some(9)),
    ("Row", "Row (Maybe ^Deep) 7", "4_", Some(10)),
    ("Row", "Row Deep 0", "C_", None),
    ("Mixed", "Mixed", "4_", Some(11)),
    ("Mixed", "Mixed", "E_", Some(12)),
    ("Mixed", "Mixed", "C_", None),
    // The CRC-32 of the text `tagged = Tagged`, and its first 31 bits.
    ("Tagged", "Tagged", "4511D4B5", Some(14)),
    ("Tagged", "Tagged", "4511D4B5_", None),
    ("Maybe", "Flag 0", "C_", None),
    ("Flag", "Maybe Deep", "", None),
    ("Flag", "Sort", "", None),
    ("Sort", "Flag 0", "6_", None),
    ("Nope", "Sort", "6_", None),
];

// A name, a word whose arguments are given, the name of a constructor, and the constructor.
static NAMED: [(&str, &str, &str, Option<u32>); 18] = [
    ("Flag", "Flag 0", "zero", Some(0)),
    ("Flag", "Flag 1", "zero", None),
    ("Count", "Count 0", "next", None),
    ("Count", "Count 1", "next", Some(3)),
    ("Maybe", "Maybe (Maybe ^Cell)", "just", Some(5)),
    ("Maybe", "Flag 0", "just", None),
    ("Maybe", "Sort", "just", None),
    ("Sort", "Sort", "_1", Some(6)),
    ("Sort", "Sort", "_2", None),
    ("Sort", "Sort", "b", Some(7)),
    ("Sort", "Sort", "_3", Some(8)),
    ("Sort", "Sort", "_", None),
    ("Row", "Row Deep 0", "last", Some(9)),
    ("Row", "Row Deep 0", "cell", None),
    ("Row", "Row Deep 1", "cell", Some(10)),
    ("Mixed", "Mixed", "_2", Some(12)),
    ("Mixed", "Mixed", "deep", None),
    ("Nope", "Sort", "b", None),
];

// A name, a place in the type of that name, and the name of the constructor there.
static SHOWN: [(&str, u32, Option<&str>); 9] = [
    ("Sort", 0, None),
    ("Sort", 1, Some("_1")),
    ("Sort", 2, Some("b")),
    ("Sort", 3, Some("_3")),
    ("Sort", 4, None),
    ("Mixed", 2, Some("_2")),
    ("Count", 2, Some("next")),
    ("Flag", 4294967295, None),
    ("Nope", 1, None),
];

fn name(rt: &impl Abort, alloc: Global, text: &str) -> Name {
    assert!(rt; is_name(text.as_bytes()));
    Name::new(alloc, text.as_bytes()).expect(rt, "memory")
}

// The arguments of the declared type that a word names.
fn arguments(rt: &impl Abort, alloc: Global, plan: &Plan, word: &str) -> Items<ClosedArg> {
    assert!(rt; word.len() <= 1_048_576);
    match resolve(alloc, plan, word).expect(rt, "a type") {
        ClosedType::Named(_, args) => args,
        _ => Items::new(alloc),
    }
}

#[test]
fn a_constructor_is_entered_where_it_fits_and_a_lead_begins_the_bits(rt: HostRuntime) {
    let plan = plan(&rt, rt.alloc(), SCHEMA);
    for (of, word, digits, wanted) in CHOSEN.iter() {
        let of = name(&rt, rt.alloc(), of);
        let args = arguments(&rt, rt.alloc(), &plan, word);
        let bits = BitString::from_hex_text(rt.alloc(), digits.as_bytes()).expect(&rt, "bits");
        let found = plan.choose(&of, args.as_slice(), bits.slice());
        assert!(rt; found == *wanted, "at {word} {digits}");
    }
}

#[test]
fn a_constructor_is_named_where_it_fits(rt: HostRuntime) {
    let plan = plan(&rt, rt.alloc(), SCHEMA);
    for (of, word, shown, wanted) in NAMED.iter() {
        let of = name(&rt, rt.alloc(), of);
        let args = arguments(&rt, rt.alloc(), &plan, word);
        let found = plan.named(&of, args.as_slice(), &name(&rt, rt.alloc(), shown));
        assert!(rt; found == *wanted, "at {word} {shown}");
    }
}

#[test]
fn an_unnamed_constructor_is_shown_by_its_place(rt: HostRuntime) {
    let plan = plan(&rt, rt.alloc(), SCHEMA);
    for (of, number, wanted) in SHOWN.iter() {
        let of = name(&rt, rt.alloc(), of);
        let found = plan.shown(&of, *number).map(|name| name.text());
        assert!(rt; found == wanted.map(|text| text.as_bytes()), "at {number}");
    }
}

//! Dictionaries that are walked and planted.
ghost use Rattle.std.specs.Prelude.{◌≤◌, ◌<◌};

use crate::bits::{bits, shows};
use crate::cells::{cell, over};
use bit_slice::{BitString, BitWriter};
use cell_nodes::{Cell, CellBuilder, CellSlice, Hidden, Mode};
use hashmap_tree::{PlantError, Walk, WalkCause, WalkError, are_entries, plant, walk};
use std::alloc::Global;
use std::process::Abort;

fn walked<'a>(
    rt: &impl Abort,
    alloc: Global,
    root: &'a Cell,
    n: u32,
    mode: Mode,
) -> Option<Walk<'a>>
    requires { n ≤ 1023 }
{
    let dictionary = root.child(0).expect(rt, "a reference");
    walk(alloc, dictionary.content(), n, mode, true).ok()
}

// The key 00 with an empty value, whose label has the required form; in the second bag it has the short form.
#[test]
fn a_leaf_is_found_by_its_key(rt: HostRuntime) {
    let root = cell(&rt, rt.alloc(), "b5ee9c72010102010007000101c0010001d4");
    let found = walked(&rt, rt.alloc(), &root, 2, Mode::Whole).expect(&rt, "a dictionary");
    assert!(rt; found.inline && found.unknown.len() == 0 && found.rest.bits.len() == 0);
    assert!(rt; found.pairs.len() == 1);
    let (key, value) = &found.pairs[0];
    assert!(rt; shows(&rt, rt.alloc(), key.slice(), "2_") && value.bits.len() == 0);
    let root = cell(&rt, rt.alloc(), "b5ee9c72010102010007000101c001000162");
    assert!(rt; walked(&rt, rt.alloc(), &root, 2, Mode::Whole).is_none());
    assert!(rt; walked(&rt, rt.alloc(), &root, 2, Mode::Lax).is_some());
}

// Keys of two bits, and their numbers of eight bits.
static ENTRIES: [(&str, u128); 4] = [("2_", 1), ("6_", 2), ("A_", 3), ("E_", 4)];

static FOUR: &str =
    "b5ee9c72010108010023000101c0010201200502020120040300030120000300e00201200706000300a000030060";

#[test]
fn leaves_stand_in_the_order_of_their_keys(rt: HostRuntime) {
    let root = cell(&rt, rt.alloc(), FOUR);
    let found = walked(&rt, rt.alloc(), &root, 2, Mode::Whole).expect(&rt, "a dictionary");
    assert!(rt; !found.inline && found.pairs.len() == 4);
    for (pair, entry) in found.pairs.iter().zip(ENTRIES.iter()) {
        assert!(rt;
            shows(&rt, rt.alloc(), pair.0.slice(), entry.0),
            "at {}",
            entry.0
        );
        assert!(rt; pair.1.bits.number(8) == Some(entry.1), "at {}", entry.0);
    }
}

/// The bits of a content, which are zeros and then a number of eight bits.
#[derive(Drop)]
struct Value(u32, u8);

/// A key and its value, by texts of bits.
#[derive(Drop)]
struct Leaf(&'static str, Value);

/// The builder of a content.
fn content(rt: &impl Abort, alloc: Global, value: &Value) -> CellBuilder {
    let mut builder = CellBuilder::new(alloc).expect(rt, "memory");
    'zeros: for i in 0..value.0 {
        let _ = builder.push_number(0, 1);
    }
    let _ = builder.push_number(u128::from(value.1), 8);
    builder
}

fn planted(
    rt: &impl Abort,
    alloc: Global,
    n: u32,
    leaves: &[Leaf],
    unknown: &[(&str, u16)],
) -> Result<CellBuilder, PlantError>
    requires { n ≤ 1023 }
{
    let mut contents = Vec::new(alloc);
    for Leaf(key, value) in leaves {
        let entry = (bits(rt, alloc, key), content(rt, alloc, value));
        contents.push(entry).ok().expect(rt, "memory");
    }
    let mut parts = Vec::new(alloc);
    for (prefix, depth) in unknown {
        let hidden = Hidden {
            hash: [17; 32],
            depth: *depth,
        };
        parts
            .push((bits(rt, alloc, prefix), hidden))
            .ok()
            .expect(rt, "memory");
    }
    let held = are_entries(alloc, n, contents.as_slice(), parts.as_slice());
    assert!(rt; held == Ok(true));
    assert!(rt; contents.len() + parts.len() > 0);
    plant(alloc, n, contents, parts.as_slice())
}

// A dictionary of one key, and the four keys whose walk stands above.
#[test]
fn trees_are_planted(rt: HostRuntime) {
    let one = [Leaf("01", Value(0, 5))];
    let found = planted(&rt, rt.alloc(), 8, &one, &[]).ok();
    let found = found.expect(&rt, "a tree");
    assert!(rt; shows(&rt, rt.alloc(), found.content().bits, "A00416_"));
    let four = [
        Leaf("2_", Value(0, 1)),
        Leaf("6_", Value(0, 2)),
        Leaf("A_", Value(0, 3)),
        Leaf("E_", Value(0, 4)),
    ];
    let found = planted(&rt, rt.alloc(), 2, &four, &[]).ok();
    let found = found.expect(&rt, "a tree").finish(rt.alloc());
    let root = cell(&rt, rt.alloc(), FOUR);
    let dictionary = root.child(0).expect(&rt, "a reference");
    assert!(rt; found.expect(&rt, "memory").hash(0) == dictionary.hash(0));
}

#[test]
fn hidden_parts_are_planted(rt: HostRuntime) {
    let leaf = [Leaf("C_", Value(0, 5))];
    let found = planted(&rt, rt.alloc(), 1, &leaf, &[("4_", 1023)]).ok();
    let found = found.expect(&rt, "a tree");
    let walk = walk(rt.alloc(), found.content(), 1, Mode::Partial, true).ok();
    let walk = walk.expect(&rt, "a dictionary");
    assert!(rt; walk.pairs.len() == 1 && walk.unknown.len() == 1);
    let (prefix, hidden) = &walk.unknown[0];
    assert!(rt; shows(&rt, rt.alloc(), prefix.slice(), "4_") && hidden.depth == 1023);
    for mode in [Mode::Whole, Mode::Lax].iter() {
        let stuck = stuck(&rt, rt.alloc(), found.content(), 1, *mode);
        assert!(rt; is_at(&rt, rt.alloc(), &stuck, "4_", WalkCause::Exotic));
    }
}

fn stuck(
    rt: &impl Abort,
    alloc: Global,
    s: CellSlice<'_>,
    n: u32,
    mode: Mode,
) -> (BitString, WalkCause)
    requires { n ≤ 1023 }
{
    match walk(alloc, s, n, mode, true) {
        Err(WalkError::Stuck(prefix, cause)) => (prefix, cause),
        _ => rt.panic("no fault"),
    }
}

fn is_at(
    rt: &impl Abort,
    alloc: Global,
    found: &(BitString, WalkCause),
    prefix: &str,
    cause: WalkCause,
) -> bool {
    shows(rt, alloc, found.0.slice(), prefix) && found.1 == cause
}

// The bits of the left part of a fork at the first of two bits, the number of its references, and its fault.
static STUCK: [(&str, usize, WalkCause); 4] = [
    ("", 0, WalkCause::ShortBits),
    ("6", 0, WalkCause::Label),
    ("2_", 1, WalkCause::ShortRefs),
    ("1_", 2, WalkCause::Leftover),
];

#[test]
fn walks_stop_at_the_first_fault(rt: HostRuntime) {
    for (text, count, cause) in STUCK.iter() {
        let mut left = CellBuilder::new(rt.alloc()).expect(&rt, "memory");
        let _ = left.push_bits(bits(&rt, rt.alloc(), text).slice());
        'refs: for i in 0..*count {
            let _ = left.push_ref(over(&rt, rt.alloc(), &[]));
        }
        let mut root = CellBuilder::new(rt.alloc()).expect(&rt, "memory");
        let _ = root.push_bits(bits(&rt, rt.alloc(), "2_").slice());
        let _ = root.push_ref(left.finish(rt.alloc()).expect(&rt, "memory"));
        let _ = root.push_ref(over(&rt, rt.alloc(), &[]));
        let found = stuck(&rt, rt.alloc(), root.content(), 2, Mode::Whole);
        assert!(rt; is_at(&rt, rt.alloc(), &found, "4_", *cause), "at {text}");
    }
}

/// The leaves and the hidden parts of keys of eight bits, and the fault with its key.
struct Fault(
    &'static [Leaf],
    &'static [(&'static str, u16)],
    &'static str,
);

// A label of eight bits takes 14, so a content of 1009 bits fits behind it and one of 1010 does not.
static FAULTS: [Fault; 6] = [
    Fault(&[Leaf("01", Value(0, 5))], &[("E_", 7)], "Form E_"),
    Fault(&[Leaf("01", Value(1002, 5))], &[], "Full 01"),
    Fault(&[Leaf("01", Value(1010, 5))], &[("C_", 1025)], "Full 01"),
    Fault(&[Leaf("81", Value(1010, 5))], &[("4_", 1025)], "TooDeep"),
    Fault(&[Leaf("81", Value(0, 5))], &[("4_", 1024)], "TooDeep"),
    Fault(&[Leaf("01", Value(1001, 5))], &[], ""),
];

fn is_fault(rt: &impl Abort, alloc: Global, error: &PlantError, text: &str) -> bool {
    match error {
        PlantError::Form(prefix) => is_text(rt, alloc, prefix, "Form ", text),
        PlantError::Full(key) => is_text(rt, alloc, key, "Full ", text),
        PlantError::TooDeep => text == "TooDeep",
        PlantError::NoMemory => false,
    }
}

fn is_text(rt: &impl Abort, alloc: Global, key: &BitString, name: &str, text: &str) -> bool {
    match text.strip_prefix(name) {
        None => false,
        Some(rest) => shows(rt, alloc, key.slice(), rest),
    }
}

#[test]
fn faults_come_in_the_order_of_building(rt: HostRuntime) {
    for Fault(leaves, unknown, text) in FAULTS.iter() {
        match planted(&rt, rt.alloc(), 8, leaves, unknown) {
            Ok(_) => assert!(rt; *text == ""),
            Err(error) => assert!(rt; is_fault(&rt, rt.alloc(), &error, text), "at {text}"),
        }
    }
}

/// A key of 1023 bits, which ends in a number of ten bits.
fn long_key(rt: &impl Abort, alloc: Global, number: u32) -> BitString
    requires { number < 1024 }
{
    let mut writer = BitWriter::new(alloc).expect(rt, "memory");
    'zeros: for i in 0..1013 {
        let _ = writer.push_number(0, 1);
    }
    let _ = writer.push_number(u128::from(number), 10);
    writer.finish()
}

#[test]
fn a_thousand_long_keys_are_planted_and_walked(rt: HostRuntime) {
    let mut leaves = Vec::new(rt.alloc());
    for i in 0..1024 {
        let entry = (
            long_key(&rt, rt.alloc(), i),
            content(&rt, rt.alloc(), &Value(0, 1)),
        );
        leaves.push(entry).ok().expect(&rt, "memory");
    }
    assert!(rt;
        leaves.len() > 0 && are_entries(rt.alloc(), 1023, leaves.as_slice(), &[]) == Ok(true)
    );
    let tree = plant(rt.alloc(), 1023, leaves, &[])
        .ok()
        .expect(&rt, "a tree");
    let found = walk(rt.alloc(), tree.content(), 1023, Mode::Whole, true).ok();
    let found = found.expect(&rt, "a dictionary");
    assert!(rt; found.pairs.len() == 1024);
    for (i, pair) in found.pairs.iter().enumerate() {
        assert!(rt; i < 1024);
        assert!(rt;
            pair.0
                .slice()
                .same(long_key(&rt, rt.alloc(), i as u32).slice())
        );
    }
}

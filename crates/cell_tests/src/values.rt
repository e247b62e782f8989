//! Paths in a value, copies, and the text that is printed.
use crate::bits::bits;
use crate::cells::over;
use bit_slice::{BitString, is_name};
use cell_nodes::Cell;
use sqlite_items::{Boxed, Items};
use std::alloc::Global;
use std::process::Abort;
use typed_value::{Dict, Hidden, Name, Number, Path, Record, RestPart, Step, Value};
use value_text::{parse_path, print};

fn name(rt: &impl Abort, alloc: Global, text: &str) -> Name {
    assert!(rt; is_name(text.as_bytes()));
    Name::new(alloc, text.as_bytes()).expect(rt, "memory")
}

fn number(size: u128) -> Value {
    Value::Number(Number {
        negative: false,
        size,
    })
}

/// A record without a name, of one field.
fn record(rt: &impl Abort, alloc: Global, field: &str, value: Value) -> Record {
    let mut fields = Items::new(alloc);
    let entry = (name(rt, alloc, field), value);
    fields.push(entry).ok().expect(rt, "memory");
    Record { name: None, fields }
}

// The record `t{n:7,r:{m:17},n:1}`, of which the first `n` counts.
fn example(rt: &impl Abort, alloc: Global) -> Value {
    let mut outer = record(rt, alloc, "n", number(7));
    outer.name = Some(name(rt, alloc, "t"));
    let inner = Value::Record(record(rt, alloc, "m", number(17)));
    let entry = (name(rt, alloc, "r"), inner);
    outer.fields.push(entry).ok().expect(rt, "memory");
    let entry = (name(rt, alloc, "n"), number(1));
    outer.fields.push(entry).ok().expect(rt, "memory");
    Value::Record(outer)
}

fn path(rt: &impl Abort, alloc: Global, words: &str) -> Path {
    let mut steps = Items::new(alloc);
    for word in words.split_whitespace() {
        let step = Step::Field(name(rt, alloc, word));
        steps.push(step).ok().expect(rt, "memory");
    }
    Path { steps }
}

// The number that a path leads to, if it leads to one.
static ROWS: [(&str, Option<u128>); 8] = [
    ("", None),
    ("n", Some(7)),
    ("r", None),
    ("r m", Some(17)),
    ("m", None),
    ("n n", None),
    ("r m m", None),
    ("a", None),
];

fn number_at(value: &Value, path: &Path) -> Option<u128> {
    match value.at(path) {
        Some(Value::Number(number)) => Some(number.size),
        _ => None,
    }
}

#[test]
fn fields_lead_to_the_values_inside(rt: HostRuntime) {
    let value = example(&rt, rt.alloc());
    for (words, size) in ROWS.iter() {
        let path = path(&rt, rt.alloc(), words);
        assert!(rt; number_at(&value, &path) == *size, "at {words}");
    }
}

const HIDDEN: Hidden = Hidden {
    hash: [0x5a; 32],
    depth: 7,
};

/// A map of the keys 00 and 01, and a hidden part after them.
fn map(rt: &impl Abort, alloc: Global) -> Value {
    let mut pairs = Items::new(alloc);
    let entry = (bits(rt, alloc, "2_"), Value::Absent);
    pairs.push(entry).ok().expect(rt, "memory");
    let inner = Boxed::new(alloc, example(rt, alloc)).expect(rt, "memory");
    let entry = (bits(rt, alloc, "6_"), Value::Ref(inner));
    pairs.push(entry).ok().expect(rt, "memory");
    let mut unknown = Items::new(alloc);
    let entry = (bits(rt, alloc, "C_"), HIDDEN);
    unknown.push(entry).ok().expect(rt, "memory");
    Value::Map(Dict { pairs, unknown })
}

/// Cells as they are: a library cell, and the rest of a cell with a reference.
fn cells(rt: &impl Abort, alloc: Global) -> (Value, Value) {
    let mut refs = Items::new(alloc);
    refs.push(over(rt, alloc, &[])).ok().expect(rt, "memory");
    let library = Cell::library(alloc, &[0x11; 32]).expect(rt, "memory");
    let rest = RestPart {
        bits: bits(rt, alloc, "D2C_"),
        refs,
    };
    (Value::Raw(library), Value::Rest(rest))
}

const TEXT: &str = "[-17,x{D2C_},<x{2_}:~,x{6_}:^t{n:7,r:{m:17},n:1},x{C_}?\
5a5a5a5a5a5a5a5a5a5a5a5a5a5a5a5a5a5a5a5a5a5a5a5a5a5a5a5a5a5a5a5a.7>,\
!(x{021111111111111111111111111111111111111111111111111111111111111111}),%(x{D2C_},(x{})),?\
5a5a5a5a5a5a5a5a5a5a5a5a5a5a5a5a5a5a5a5a5a5a5a5a5a5a5a5a5a5a5a5a.7]";

#[test]
fn values_of_each_form_are_copied_and_printed(rt: HostRuntime) {
    let mut items = Items::new(rt.alloc());
    let negative = Value::Number(Number {
        negative: true,
        size: 17,
    });
    let (raw, rest) = cells(&rt, rt.alloc());
    let bits = Value::Bits(bits(&rt, rt.alloc(), "D2C_"));
    let hidden = Value::Unknown(HIDDEN);
    for value in [negative, bits, map(&rt, rt.alloc()), raw, rest, hidden] {
        items.push(value).ok().expect(&rt, "memory");
    }
    let copy = Value::List(items).copy(rt.alloc()).expect(&rt, "memory");
    assert!(rt; copy.levels() == 6 && copy.parts() == 14);
    let text = print(rt.alloc(), &copy).expect(&rt, "memory");
    assert!(rt; text.as_slice() == TEXT.as_bytes());
}

// Paths, and how many steps they have.
static PATHS: [(&str, usize); 3] = [("/", 0), ("/_2", 1), ("/inner/3/x{C_}", 3)];

#[test]
fn paths_are_parsed(rt: HostRuntime) {
    for (text, count) in PATHS.iter() {
        let path = parse_path(rt.alloc(), text).ok().expect(&rt, "a path");
        assert!(rt; path.steps.len() == *count, "at {text}");
    }
    assert!(rt; parse_path(rt.alloc(), "/a/").is_err());
}

//! What a path names.
ghost use Rattle.std.specs.Prelude.{◌≡◌, map, option_map, bytes_eq};
ghost use Rattle.typed_value.specs.Paths.{at_path, entry_at, field_at, in_list, in_map, in_record, item_at, step_at};
ghost use Rattle.typed_value.specs.View.{names_in, pair_of, pairs_of, stride, vals_in, vals_of, value};

use crate::path::{Path, Step};
use crate::value::Value;
use bit_slice::{BitString, Name};

impl Value {
    /// The value that the steps lead to, or `None` where one of them names nothing. A reference adds no step, and
    /// one at the end of the path is given as it stands.
    pub fn at(&self, path: &Path) -> Option<&Value>
        ensures { option_map (λ v. value v.now) result ≡ at_path (value self.entry.now) (map stride path.now.steps) }
    {
        let mut here = self;
        'steps: for step in path.steps.as_slice() {
            here = step_of(here, step)?;
        }
        Some(here)
    }
}

// What one step leads to.
fn step_of<'a>(from: &'a Value, step: &Step) -> Option<&'a Value>
    ensures { option_map (λ v. value v.now) result ≡ step_at (value from.entry.now) (stride step.now) }
{
    match from {
        Value::Ref(inner) => step_of(inner.get(), step),
        Value::Record(record) => in_record(record.fields.as_slice(), step),
        Value::List(items) => in_list(items.as_slice(), step),
        Value::Map(dict) => in_map(dict.pairs.as_slice(), step),
        _ => None,
    }
}

fn in_record<'a>(fields: &'a [(Name, Value)], step: &Step) -> Option<&'a Value>
    ensures { let fs = map pair_of fields.entry.now in
        option_map (λ v. value v.now) result ≡ in_record (names_in fs) (vals_in fs) (stride step.now) }
{
    match step {
        Step::Field(name) => field(fields, name),
        Step::Item(_) => None,
        Step::Key(_) => None,
    }
}

fn in_list<'a>(items: &'a [Value], step: &Step) -> Option<&'a Value>
    ensures { option_map (λ v. value v.now) result ≡ in_list (vals_of (map value items.entry.now)) (stride step.now) }
{
    match step {
        Step::Field(_) => None,
        Step::Item(i) => item(items, *i),
        Step::Key(_) => None,
    }
}

fn in_map<'a>(pairs: &'a [(BitString, Value)], step: &Step) -> Option<&'a Value>
    ensures { option_map (λ v. value v.now) result ≡ in_map (pairs_of (map pair_of pairs.entry.now)) (stride step.now) }
{
    match step {
        Step::Field(_) => None,
        Step::Item(_) => None,
        Step::Key(key) => entry(pairs, key),
    }
}

// The first field of that name.
fn field<'a>(fields: &'a [(Name, Value)], name: &Name) -> Option<&'a Value>
    ensures { let fs = map pair_of fields.entry.now in
        option_map (λ v. value v.now) result ≡ field_at (names_in fs) (vals_in fs) name.now }
{
    'fields: for (found, inner) in fields {
        if found.text() == name.text() {
            return Some(inner);
        }
    }
    None
}

// The item at that place.
fn item(items: &[Value], i: u32) -> Option<&Value>
    ensures { option_map (λ v. value v.now) result ≡ item_at (vals_of (map value items.entry.now)) i }
{
    sqlite_items::at(items, i as usize)
}

// The value of the first entry with that key.
fn entry<'a>(pairs: &'a [(BitString, Value)], key: &BitString) -> Option<&'a Value>
    ensures { option_map (λ v. value v.now) result ≡ entry_at (pairs_of (map pair_of pairs.entry.now)) key.now }
{
    'pairs: for (found, inner) in pairs {
        if are_same(found, key) {
            return Some(inner);
        }
    }
    None
}

// Whether the bits are the same.
fn are_same(a: &BitString, b: &BitString) -> bool
    ensures { result ≡ bytes_eq a.now b.now }
{
    a.slice().same(b.slice())
}

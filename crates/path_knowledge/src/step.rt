//! What one step leads to.
ghost use Rattle.std.specs.Prelude.{◌≡◌, bytes_eq, map, option_map};
ghost use Rattle.typed_value.specs.Paths.{entry_at, field_at, in_list, in_map, in_record, item_at, step_at};
ghost use Rattle.typed_value.specs.View.{names_in, pair_of, pairs_of, stride, vals_in, vals_of, value as value_view};

use bit_slice::{BitString, Name};
use typed_value::{Step, Value};

// What one step leads to.
pub(crate) fn step_of<'a>(from: &'a Value, step: &Step) -> Option<&'a Value>
    ensures { option_map (λ v. value_view v.now) result ≡ step_at (value_view from.entry.now) (stride step.now) }
{
    match from {
        Value::Ref(inner) => step_of(inner.get(), step),
        Value::Record(record) => in_record(record.fields.as_slice(), step),
        Value::List(items) => in_list(items.as_slice(), step),
        Value::Map(dict) => in_map(dict.pairs.as_slice(), step),
        _ => None,
    }
}

fn in_record<'a>(fields: &'a [(Name, Value)], step: &Step) -> Option<&'a Value>
    ensures { let fs = map pair_of fields.entry.now in
        option_map (λ v. value_view v.now) result ≡ in_record (names_in fs) (vals_in fs) (stride step.now) }
{
    match step {
        Step::Field(name) => field(fields, name),
        Step::Item(_) => None,
        Step::Key(_) => None,
    }
}

fn in_list<'a>(items: &'a [Value], step: &Step) -> Option<&'a Value>
    ensures { option_map (λ v. value_view v.now) result ≡ in_list (vals_of (map value_view items.entry.now)) (stride step.now) }
{
    match step {
        Step::Field(_) => None,
        Step::Item(i) => item(items, *i),
        Step::Key(_) => None,
    }
}

fn in_map<'a>(pairs: &'a [(BitString, Value)], step: &Step) -> Option<&'a Value>
    ensures { option_map (λ v. value_view v.now) result ≡ in_map (pairs_of (map pair_of pairs.entry.now)) (stride step.now) }
{
    match step {
        Step::Field(_) => None,
        Step::Item(_) => None,
        Step::Key(key) => entry(pairs, key),
    }
}

// The first field of that name.
fn field<'a>(fields: &'a [(Name, Value)], name: &Name) -> Option<&'a Value>
    ensures { let fs = map pair_of fields.entry.now in
        option_map (λ v. value_view v.now) result ≡ field_at (names_in fs) (vals_in fs) name.now }
{
    'fields: for (found, inner) in fields {
        if found.text() == name.text() {
            return Some(inner);
        }
    }
    None
}

// The item at that place.
fn item(items: &[Value], i: u32) -> Option<&Value>
    ensures { option_map (λ v. value_view v.now) result ≡ item_at (vals_of (map value_view items.entry.now)) i }
{
    sqlite_items::at(items, i as usize)
}

// The value of the first entry with that key.
pub(crate) fn entry<'a>(pairs: &'a [(BitString, Value)], key: &BitString) -> Option<&'a Value>
    ensures { option_map (λ v. value_view v.now) result ≡ entry_at (pairs_of (map pair_of pairs.entry.now)) key.now }
{
    'pairs: for (found, inner) in pairs {
        if are_same(found, key) {
            return Some(inner);
        }
    }
    None
}

// Whether the bits are the same.
fn are_same(a: &BitString, b: &BitString) -> bool
    ensures { result ≡ bytes_eq a.now b.now }
{
    a.slice().same(b.slice())
}

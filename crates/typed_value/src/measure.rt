//! How deep a value is, and of how many values it is made.
ghost use Rattle.std.specs.Prelude.{◌≡◌, ◌≤◌, ◌+◌, ◌-◌, ◌^◌, ◌<◌, map, min};
ghost use Rattle.typed_value.specs.Values.{levels, levels_by, levels_in, most_levels, most_parts, parts, parts_by, parts_in, stopped};
ghost use Rattle.typed_value.specs.View.{pair_of, pairs_of, vals_in, vals_of, value};

use crate::value::Value;
use bit_slice::{BitString, Name};

/// The most levels of a value that is read, built or parsed.
const MOST_LEVELS: u32 = 2304;

/// The most parts of such a value.
const MOST_PARTS: u32 = 1048576;

impl Value {
    /// How deep values stand in one another, or one more than the limit of 2,304.
    pub fn levels(&self) -> u32
        ensures { result ≡ stopped most_levels (levels (value self.now)) }
    {
        levels_within(self, MOST_LEVELS + 1)
    }

    /// Of how many values it is made, itself included, or one more than the limit of 1,048,576.
    pub fn parts(&self) -> u32
        ensures { result ≡ stopped most_parts (parts (value self.now)) }
    {
        parts_within(self, MOST_PARTS + 1)
    }
}

// The levels, or the limit where there are more.
#[cycle(levels)]
fn levels_within(of: &Value, limit: u32) -> u32
    ensures { result ≡ min (levels (value of.now)) limit }
{
    if limit == 0 {
        return 0;
    }
    match of {
        Value::Record(record) => 1 + levels_of_fields(record.fields.as_slice(), limit - 1),
        Value::List(items) => 1 + levels_of_items(items.as_slice(), limit - 1),
        Value::Ref(inner) => 1 + levels_within(inner.get(), limit - 1),
        Value::Map(dict) => 1 + levels_of_pairs(dict.pairs.as_slice(), limit - 1),
        _ => 1,
    }
}

#[cycle(levels)]
fn levels_of_items(items: &[Value], limit: u32) -> u32
    ensures { result ≡ min (levels_in (vals_of (map value items.now))) limit }
{
    let mut most = 0;
    'items: for item in items {
        most = most.max(levels_within(item, limit));
    }
    most
}

#[cycle(levels)]
fn levels_of_fields(fields: &[(Name, Value)], limit: u32) -> u32
    ensures { result ≡ min (levels_in (vals_in (map pair_of fields.now))) limit }
{
    let mut most = 0;
    'fields: for (_, inner) in fields {
        most = most.max(levels_within(inner, limit));
    }
    most
}

#[cycle(levels)]
fn levels_of_pairs(pairs: &[(BitString, Value)], limit: u32) -> u32
    ensures { result ≡ min (levels_by (pairs_of (map pair_of pairs.now))) limit }
{
    let mut most = 0;
    'pairs: for (_, inner) in pairs {
        most = most.max(levels_within(inner, limit));
    }
    most
}

// The parts, or the limit where there are more.
#[cycle(parts)]
fn parts_within(of: &Value, limit: u32) -> u32
    ensures { result ≡ min (parts (value of.now)) limit }
{
    if limit == 0 {
        return 0;
    }
    match of {
        Value::Record(record) => 1 + parts_of_fields(record.fields.as_slice(), limit - 1),
        Value::List(items) => 1 + parts_of_items(items.as_slice(), limit - 1),
        Value::Ref(inner) => 1 + parts_within(inner.get(), limit - 1),
        Value::Map(dict) => 1 + parts_of_pairs(dict.pairs.as_slice(), limit - 1),
        _ => 1,
    }
}

#[cycle(parts)]
fn parts_of_items(items: &[Value], limit: u32) -> u32
    ensures { result ≡ min (parts_in (vals_of (map value items.now))) limit }
{
    let mut left = limit;
    'items: for item in items {
        left -= parts_within(item, left);
    }
    limit - left
}

#[cycle(parts)]
fn parts_of_fields(fields: &[(Name, Value)], limit: u32) -> u32
    ensures { result ≡ min (parts_in (vals_in (map pair_of fields.now))) limit }
{
    let mut left = limit;
    'fields: for (_, inner) in fields {
        left -= parts_within(inner, left);
    }
    limit - left
}

#[cycle(parts)]
fn parts_of_pairs(pairs: &[(BitString, Value)], limit: u32) -> u32
    ensures { result ≡ min (parts_by (pairs_of (map pair_of pairs.now))) limit }
{
    let mut left = limit;
    'pairs: for (_, inner) in pairs {
        left -= parts_within(inner, left);
    }
    limit - left
}

//! Printing.
ghost use Rattle.std.specs.Prelude.{◌≡◌, ◌++◌, [], ◌∷◌, ◌≤◌, IfOk, OnOk, length, map};
ghost use Rattle.typed_value.specs.Values.{list_of, map_of, record_of, ref_to};
ghost use Rattle.typed_value.specs.View.{names_in, pair_of, pairs_of, vals_in, vals_of, value};
ghost use Rattle.value_text.specs.Text.{count_before, entries, fields, hidden_entry, items, separated, text_of, tokens};
ghost use Rattle.value_text.specs.TextLaws.{first_after, separated_from};
ghost use Rattle.value_text.specs.Tokens.{written};
ghost use Rattle.value_text.specs.Writes.{IsWritable, TextWrites};

use crate::cells::{put_cell, put_rest};
use crate::marks::{
    comes_before, put_bits, put_byte, put_comma, put_hidden, put_key, put_label, put_name,
    put_number,
};
use bit_slice::{BitString, Name};
use std::alloc::Global;
use tlb_memory::NoMemory;
use typed_value::{Hidden, Value};

/// The text of a value, without white space.
pub fn print(alloc: Global, shown: &Value) -> Result<Vec<u8>, NoMemory>
    ensures text { IfOk result (λ text. text.items ≡ text_of (value shown.now)) }
    ensures writes { IfOk result (λ text. IsWritable (value shown.now) → TextWrites text.items (value shown.now)) }
{
    let mut text = Vec::new(alloc);
    put_value(alloc, &mut text, shown)?;
    Ok(text)
}

#[cycle(print)]
fn put_value(alloc: Global, text: &mut Vec<u8>, shown: &Value) -> Result<(), NoMemory>
    ensures { OnOk result (text.new.items ≡ text.old.items ++ text_of (value shown.now)) }
{
    match shown {
        Value::Number(number) => put_number(alloc, text, *number),
        Value::Bits(bits) => put_bits(alloc, text, bits.slice()),
        Value::Record(record) => put_record(alloc, text, &record.name, record.fields.as_slice()),
        Value::Absent => put_byte(text, b'~'),
        Value::List(items) => put_list(alloc, text, items.as_slice()),
        Value::Ref(inner) => put_ref(alloc, text, inner.get()),
        Value::Unknown(hidden) => put_hidden(alloc, text, hidden),
        Value::Map(dict) => put_map(alloc, text, dict.pairs.as_slice(), dict.unknown.as_slice()),
        Value::Raw(cell) => put_cell(alloc, text, cell),
        Value::Rest(part) => put_rest(alloc, text, part),
    }
}

#[cycle(print)]
fn put_record(
    alloc: Global,
    text: &mut Vec<u8>,
    name: &Option<Name>,
    shown: &[(Name, Value)],
) -> Result<(), NoMemory>
    ensures { let fs = map pair_of shown.now in
        OnOk result (text.new.items ≡ text.old.items ++ text_of (record_of name.now (names_in fs) (vals_in fs))) }
{
    put_name(text, name)?;
    put_byte(text, b'{')?;
    put_fields(alloc, text, shown)?;
    put_byte(text, b'}')?;
    Ok(())
}

#[cycle(print)]
fn put_list(alloc: Global, text: &mut Vec<u8>, shown: &[Value]) -> Result<(), NoMemory>
    ensures { OnOk result (text.new.items ≡ text.old.items ++ text_of (list_of (vals_of (map value shown.now)))) }
{
    put_byte(text, b'[')?;
    put_items(alloc, text, shown)?;
    put_byte(text, b']')?;
    Ok(())
}

#[cycle(print)]
fn put_ref(alloc: Global, text: &mut Vec<u8>, inner: &Value) -> Result<(), NoMemory>
    ensures { OnOk result (text.new.items ≡ text.old.items ++ text_of (ref_to tt (value inner.now))) }
{
    put_byte(text, b'^')?;
    put_value(alloc, text, inner)?;
    Ok(())
}

#[cycle(print)]
fn put_map(
    alloc: Global,
    text: &mut Vec<u8>,
    pairs: &[(BitString, Value)],
    unknown: &[(BitString, Hidden)],
) -> Result<(), NoMemory>
    ensures { let m = map_of tt (pairs_of (map pair_of pairs.now)) unknown.now in
        OnOk result (text.new.items ≡ text.old.items ++ text_of m) }
{
    put_byte(text, b'<')?;
    put_entries(alloc, text, pairs, unknown)?;
    put_byte(text, b'>')?;
    Ok(())
}

#[cycle(print)]
fn put_items(alloc: Global, text: &mut Vec<u8>, shown: &[Value]) -> Result<(), NoMemory>
    ensures { let es = items (vals_of (map value shown.now)) in
        OnOk result (text.new.items ≡ text.old.items ++ written (separated es)) }
{
    let mut is_first = true;
    'items: for item in shown {
        put_comma(text, is_first)?;
        put_value(alloc, text, item)?;
        is_first = false;
    }
    Ok(())
}

#[cycle(print)]
fn put_fields(alloc: Global, text: &mut Vec<u8>, shown: &[(Name, Value)]) -> Result<(), NoMemory>
    ensures { let fs = map pair_of shown.now in
        OnOk result (text.new.items ≡ text.old.items ++ written (separated (fields (names_in fs) (vals_in fs)))) }
{
    let mut is_first = true;
    'fields: for (name, inner) in shown {
        put_comma(text, is_first)?;
        put_label(text, name)?;
        put_value(alloc, text, inner)?;
        is_first = false;
    }
    Ok(())
}

#[cycle(print)]
fn put_entries(
    alloc: Global,
    text: &mut Vec<u8>,
    pairs: &[(BitString, Value)],
    unknown: &[(BitString, Hidden)],
) -> Result<(), NoMemory>
    ensures { let es = entries (pairs_of (map pair_of pairs.now)) unknown.now in
        OnOk result (text.new.items ≡ text.old.items ++ written (separated es)) }
{
    let mut is_first = true;
    let mut left = unknown;
    'pairs: for (key, inner) in pairs {
        let (before, after) = left.split_at(count_before(left, key));
        is_first = put_unknown(alloc, text, is_first, before)?;
        put_comma(text, is_first)?;
        put_key(alloc, text, key)?;
        put_value(alloc, text, inner)?;
        is_first = false;
        left = after;
    }
    put_unknown(alloc, text, is_first, left)?;
    Ok(())
}

// Hidden parts, with commas between. Whether the next entry is still the first.
fn put_unknown(
    alloc: Global,
    text: &mut Vec<u8>,
    is_first: bool,
    unknown: &[(BitString, Hidden)],
) -> Result<bool, NoMemory>
    ensures { let es = map hidden_entry unknown.now in
        let added = written (separated_from is_first es) in
        IfOk result (λ b. (b ≡ first_after is_first es) × (text.new.items ≡ text.old.items ++ added)) }
{
    let mut still = is_first;
    'unknown: for (prefix, hidden) in unknown {
        put_comma(text, still)?;
        put_bits(alloc, text, prefix.slice())?;
        put_hidden(alloc, text, hidden)?;
        still = false;
    }
    Ok(still)
}

// How many of the first hidden parts come before the key.
fn count_before(unknown: &[(BitString, Hidden)], key: &BitString) -> usize
    ensures value { result ≡ count_before key.now unknown.now }
    ensures within { result ≤ length unknown.now }
{
    'unknown: for (i, (prefix, _)) in unknown.iter().enumerate() {
        if !comes_before(prefix.slice(), key.slice()) {
            return i;
        }
    }
    unknown.len()
}

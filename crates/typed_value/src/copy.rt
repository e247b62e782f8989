//! Copies of values.
ghost use Rattle.std.specs.Prelude.{◌≡◌, IfOk};

use crate::value::{Dict, Record, RestPart, Value};
use bit_slice::{BitString, Name};
use cell_nodes::{Cell, Hidden};
use sqlite_items::{Boxed, Items};
use std::alloc::Global;
use tlb_memory::NoMemory;

impl Value {
    /// The same value once more. Its cells are shared.
    pub fn copy(&self, alloc: Global) -> Result<Value, NoMemory>
        ensures { IfOk result (λ v. v ≡ self.now) }
    {
        copy_value(alloc, self)
    }
}

#[cycle(copy)]
fn copy_value(alloc: Global, from: &Value) -> Result<Value, NoMemory>
    ensures { IfOk result (λ v. v ≡ from.now) }
{
    match from {
        Value::Number(number) => Ok(Value::Number(*number)),
        Value::Bits(bits) => Ok(Value::Bits(copy_bits(alloc, bits)?)),
        Value::Record(record) => Ok(Value::Record(copy_record(alloc, record)?)),
        Value::Absent => Ok(Value::Absent),
        Value::List(items) => Ok(Value::List(copy_items(alloc, items.as_slice())?)),
        Value::Ref(inner) => {
            let inner = copy_value(alloc, inner.get())?;
            Ok(Value::Ref(Boxed::new(alloc, inner)?))
        }
        Value::Unknown(hidden) => Ok(Value::Unknown(*hidden)),
        Value::Map(dict) => Ok(Value::Map(copy_dict(alloc, dict)?)),
        Value::Raw(cell) => Ok(Value::Raw(cell.share()?)),
        Value::Rest(part) => Ok(Value::Rest(copy_rest(alloc, part)?)),
    }
}

#[cycle(copy)]
fn copy_items(alloc: Global, items: &[Value]) -> Result<Items<Value>, NoMemory>
    ensures { IfOk result (λ copies. copies ≡ items.now) }
{
    let mut copies = Items::new(alloc);
    'items: for item in items {
        copies.push(copy_value(alloc, item)?)?;
    }
    Ok(copies)
}

#[cycle(copy)]
fn copy_record(alloc: Global, from: &Record) -> Result<Record, NoMemory>
    ensures { IfOk result (λ r. r ≡ from.now) }
{
    let name = copy_name(alloc, &from.name)?;
    let fields = copy_fields(alloc, from.fields.as_slice())?;
    Ok(Record { name, fields })
}

#[cycle(copy)]
fn copy_fields(alloc: Global, fields: &[(Name, Value)]) -> Result<Items<(Name, Value)>, NoMemory>
    ensures { IfOk result (λ copies. copies ≡ fields.now) }
{
    let mut copies = Items::new(alloc);
    'fields: for (name, inner) in fields {
        let name = name.copy(alloc)?;
        let inner = copy_value(alloc, inner)?;
        copies.push((name, inner))?;
    }
    Ok(copies)
}

#[cycle(copy)]
fn copy_dict(alloc: Global, dict: &Dict) -> Result<Dict, NoMemory>
    ensures { IfOk result (λ d. d ≡ dict.now) }
{
    let pairs = copy_pairs(alloc, dict.pairs.as_slice())?;
    let unknown = copy_unknown(alloc, dict.unknown.as_slice())?;
    Ok(Dict { pairs, unknown })
}

#[cycle(copy)]
fn copy_pairs(
    alloc: Global,
    pairs: &[(BitString, Value)],
) -> Result<Items<(BitString, Value)>, NoMemory>
    ensures { IfOk result (λ copies. copies ≡ pairs.now) }
{
    let mut copies = Items::new(alloc);
    'pairs: for (key, inner) in pairs {
        let key = copy_bits(alloc, key)?;
        let inner = copy_value(alloc, inner)?;
        copies.push((key, inner))?;
    }
    Ok(copies)
}

fn copy_unknown(
    alloc: Global,
    unknown: &[(BitString, Hidden)],
) -> Result<Items<(BitString, Hidden)>, NoMemory>
    ensures { IfOk result (λ copies. copies ≡ unknown.now) }
{
    let mut copies = Items::new(alloc);
    'unknown: for (prefix, hidden) in unknown {
        copies.push((copy_bits(alloc, prefix)?, *hidden))?;
    }
    Ok(copies)
}

fn copy_name(alloc: Global, name: &Option<Name>) -> Result<Option<Name>, NoMemory>
    ensures { IfOk result (λ n. n ≡ name.now) }
{
    match name {
        None => Ok(None),
        Some(name) => Ok(Some(name.copy(alloc)?)),
    }
}

fn copy_bits(alloc: Global, bits: &BitString) -> Result<BitString, NoMemory>
    ensures { IfOk result (λ b. b ≡ bits.now) }
{
    BitString::from_slice(alloc, bits.slice())
}

fn copy_rest(alloc: Global, part: &RestPart) -> Result<RestPart, NoMemory>
    ensures { IfOk result (λ p. p ≡ part.now) }
{
    let bits = copy_bits(alloc, &part.bits)?;
    let refs = share_all(alloc, part.refs.as_slice())?;
    Ok(RestPart { bits, refs })
}

fn share_all(alloc: Global, cells: &[Cell]) -> Result<Items<Cell>, NoMemory>
    ensures { IfOk result (λ shared. shared ≡ cells.now) }
{
    let mut shared = Items::new(alloc);
    'cells: for cell in cells {
        shared.push(cell.share()?)?;
    }
    Ok(shared)
}

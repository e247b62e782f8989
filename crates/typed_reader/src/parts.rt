//! The parts of a reading that read no other value.
ghost use Rattle.std.specs.Prelude.{◌≡◌, ◌<◌, ◌+◌, ◌++◌, ◌≤◌, ◌^◌, List, Option, None, Ok, [], false, true};
ghost use Rattle.std.specs.Prelude.{◌≢◌, MatchOption, IfOk, OnOk, length, map, option_map, option_to_list};
ghost use Rattle.cell_nodes.specs.declared.tree.Kind.TheVariants.{Ordinary};
ghost use Rattle.cell_nodes.specs.declared.tree.Tree.{out-Tree};
ghost use Rattle.closed_type.specs.View.{closed_type as type_view};
ghost use Rattle.closed_type.specs.declared.tree.ClosedType.{ClosedType as TheClosedType};
ghost use Rattle.core_form.specs.Closed as closed;
ghost use Rattle.core_form.specs.Core.{sets};
ghost use Rattle.core_form.specs.Scope as scopes;
ghost use Rattle.flat_form.specs.Sound.{IsFlat};
ghost use Rattle.flat_form.specs.Stands.{slot_of, type_at};
ghost use Rattle.hashmap_tree.specs.Adds.{slice_of};
ghost use Rattle.hashmap_tree.specs.Entries.{Slice, content};
ghost use Rattle.plan_closing.specs.Counted.{scope_of};
ghost use Rattle.plan_reading.specs.Stops.{Gives};
ghost use Rattle.spelling.specs.Goals as goals;
ghost use Rattle.spelling.specs.Places.{Spot};
ghost use Rattle.spelling.specs.PlainReader as plain;
ghost use Rattle.spelling.specs.Slices as slices;
ghost use Rattle.typed_value.specs.Values as values;
ghost use Rattle.typed_value.specs.View.{names_in, pair_of, pairs_of, value as value_view, vals_in, vals_of};
ghost use Rattle.typed_reader.specs.Begun.{Begins, WalkStops, is_whole};
ghost use Rattle.typed_reader.specs.View.{found_view, outputs_of};

use crate::found::{Found, Outputs, Step};
use bit_slice::{BitString, Name};
use cell_nodes::{Cell, CellSlice, Hidden, Kind, RefSlice};
use closed_type::ClosedType;
use flat_form::Flat;
use hashmap_tree::WalkError;
use nat_solver::Env;
use plan_reading::{
    StopError, bind, read_bits, read_natural, read_signed, read_unsigned, stop_here, walk_cause,
};
use spelling::Cause;
use sqlite_items::Items;
use std::alloc::Global;
use tlb_memory::NoMemory;
use typed_value::{Dict, Number, Record, RestPart, Value};

/// The most parts of a value.
const MOST_PARTS: u32 = 1_048_576;

/// Takes a level and a part for a value, in this order.
pub fn begin(alloc: Global, levels: u32, begun: &mut u32) -> Result<(), StopError>
    ensures begins { Begins levels begun.old begun.new result }
    ensures left { OnOk result (0 < levels) }
    ensures counts { OnOk result (begun.new ≡ begun.old + 1) }
{
    if levels == 0 {
        return Err(stop_here(alloc, Cause::Nesting));
    }
    if *begun >= MOST_PARTS {
        return Err(stop_here(alloc, Cause::Bulk));
    }
    *begun += 1;
    Ok(())
}

/// A number of `width` bits below a bound, which is its own output.
pub fn read_number<'a>(
    alloc: Global,
    width: u32,
    bound: u64,
    s: CellSlice<'a>,
) -> Result<Found<'a>, StopError>
    requires width { width ≤ 32 }
    requires bound { bound ≤ 2 ^ 32 }
    ensures gives { (h : Spot) → Gives h found_view result
        (plain.read_row h (goals.natural width bound true) (slice_of s.entry)) }
    ensures counts { IfOk result (λ x. values.parts (value_view x.value) ≡ 1) }
{
    let CellSlice { bits, refs } = s;
    match read_natural(&bits, width, bound) {
        Err(cause) => Err(stop_here(alloc, cause)),
        Ok((number, bits)) => Ok(Found {
            value: natural(number),
            outputs: Outputs::One(number),
            rest: CellSlice { bits, refs },
        }),
    }
}

/// A `uint`: a number where it has at most 128 bits, else its bits.
pub fn read_uint<'a>(alloc: Global, n: u32, s: CellSlice<'a>) -> Result<Found<'a>, StopError>
    ensures gives { (h : Spot) → Gives h found_view result (plain.read_row h (goals.row (closed.uint n)) (slice_of s.entry)) }
    ensures counts { IfOk result (λ x. values.parts (value_view x.value) ≡ 1) }
{
    if n > 128 {
        return read_string(alloc, n, s);
    }
    let CellSlice { bits, refs } = s;
    match read_unsigned(&bits, n) {
        Err(cause) => Err(stop_here(alloc, cause)),
        Ok((number, bits)) => Ok(alone(Value::Number(number), CellSlice { bits, refs })),
    }
}

/// An `int`: a number where it has at most 128 bits, else its bits.
pub fn read_int<'a>(alloc: Global, n: u32, s: CellSlice<'a>) -> Result<Found<'a>, StopError>
    ensures gives { (h : Spot) → Gives h found_view result (plain.read_row h (goals.row (closed.int n)) (slice_of s.entry)) }
    ensures counts { IfOk result (λ x. values.parts (value_view x.value) ≡ 1) }
{
    if n > 128 {
        return read_string(alloc, n, s);
    }
    let CellSlice { bits, refs } = s;
    match read_signed(&bits, n) {
        Err(cause) => Err(stop_here(alloc, cause)),
        Ok((number, bits)) => Ok(alone(Value::Number(number), CellSlice { bits, refs })),
    }
}

/// So many bits as they are.
pub fn read_string<'a>(alloc: Global, n: u32, s: CellSlice<'a>) -> Result<Found<'a>, StopError>
    ensures gives { (h : Spot) → Gives h found_view result (plain.read_row h (goals.string n) (slice_of s.entry)) }
    ensures counts { IfOk result (λ x. values.parts (value_view x.value) ≡ 1) }
{
    let CellSlice { bits, refs } = s;
    match read_bits(&bits, n) {
        Err(cause) => Err(stop_here(alloc, cause)),
        Ok((first, bits)) => {
            let value = Value::Bits(BitString::from_slice(alloc, first)?);
            Ok(alone(value, CellSlice { bits, refs }))
        }
    }
}

/// A natural number as a value.
fn natural(number: u32) -> Value
    ensures { value_view result ≡ values.number false number }
{
    Value::Number(Number {
        negative: false,
        size: u128::from(number),
    })
}

/// A value without outputs.
pub fn alone<'a>(value: Value, rest: CellSlice<'a>) -> Found<'a>
    ensures { found_view result ≡ (value_view value, [], slice_of rest.entry) }
{
    Found {
        value,
        outputs: Outputs::Empty,
        rest,
    }
}

/// A record of a constructor with this shown name, or in a record.
pub fn record_of(name: Option<Name>, fields: Items<(Name, Value)>) -> Value
    ensures { value_view result
        ≡ values.record_of name (names_in (map pair_of fields)) (vals_in (map pair_of fields)) }
{
    Value::Record(Record { name, fields })
}

/// A list of these values.
pub fn list_of(items: Items<Value>) -> Value
    ensures { value_view result ≡ values.list_of (vals_of (map value_view items)) }
{
    Value::List(items)
}

/// A map of these values and hidden parts.
pub fn dict_of(pairs: Items<(BitString, Value)>, unknown: Items<(BitString, Hidden)>) -> Value
    ensures { value_view result ≡ values.map_of tt (pairs_of (map pair_of pairs)) unknown }
{
    Value::Map(Dict { pairs, unknown })
}

/// Whether the type is Any or Cell.
pub fn is_whole(ty: &ClosedType) -> bool
    ensures { result ≡ is_whole (type_view ty.now) }
{
    matches!(ty, ClosedType::Whole)
}

/// The bits and the references of an ordinary cell; no other cell is read on.
pub fn ordinary_content(cell: &Cell) -> Option<CellSlice<'_>>
    ensures { MatchOption result ((out-Tree cell.now).kind ≢ Ordinary)
        (λ s. ((out-Tree cell.now).kind ≡ Ordinary) × (slice_of s ≡ content cell.now)) }
{
    match cell.kind() {
        Kind::Ordinary => Some(cell.content()),
        Kind::Pruned | Kind::Library | Kind::Proof | Kind::Update => None,
    }
}

/// Whether no bit and no reference is left.
pub fn is_nothing(s: &CellSlice<'_>) -> bool
    ensures { result ≡ slices.is_nothing (slice_of s.now) }
{
    s.bits.len() == 0 && s.refs.len() == 0
}

/// How many bits and references are left.
pub fn size(s: &CellSlice<'_>) -> (u32, u32)
    ensures { result ≡ (length (slice_of s.now).bits, length (slice_of s.now).refs) }
{
    (s.bits.len(), s.refs.len())
}

/// Whether fewer bits or fewer references are left than before.
pub fn took(before: (u32, u32), s: &CellSlice<'_>) -> bool
    ensures { (b : Slice) → before ≡ (length b.bits, length b.refs) → result ≡ slices.took b (slice_of s.now) }
{
    s.bits.len() < before.0 || s.refs.len() < before.1
}

/// Copies of all references, and what is left after them.
fn shared<'a>(alloc: Global, refs: RefSlice<'a>) -> Result<(Items<Cell>, RefSlice<'a>), NoMemory>
    ensures cells { IfOk result (λ x. x.0 ≡ refs.entry) }
    ensures left { IfOk result (λ x. x.1 ≡ []) }
{
    let mut left = refs;
    let mut cells = Items::new(alloc);
    while let Some((cell, more)) = left.first() {
        cells.push(cell.share()?)?;
        left = more;
    }
    Ok((cells, left))
}

/// All that is left.
pub fn read_rest<'a>(alloc: Global, s: CellSlice<'a>) -> Result<Found<'a>, StopError>
    ensures gives { (h : Spot) → Gives h found_view result
        (Ok (values.rest (slices.kept (slice_of s.entry)), [], slices.nothing)) }
    ensures counts { IfOk result (λ x. values.parts (value_view x.value) ≡ 1) }
{
    let CellSlice { bits, refs } = s;
    let Some((first, bits)) = bits.take(bits.len()) else {
        unreachable!()
    };
    let first = BitString::from_slice(alloc, first)?;
    let (cells, refs) = shared(alloc, refs)?;
    let part = RestPart {
        bits: first,
        refs: cells,
    };
    Ok(alone(Value::Rest(part), CellSlice { bits, refs }))
}

/// A stop where a walk of a dictionary stopped, with the spot of its field.
pub fn stop_of(alloc: Global, error: WalkError) -> StopError
    ensures { WalkStops error result }
{
    match error {
        WalkError::NoMemory => StopError::NoMemory,
        WalkError::Stuck(_, cause) => stop_here(alloc, walk_cause(cause)),
    }
}

/// An operation that reads no field, with the condition of the next one.
pub fn without_field<'a>(condition: Option<(u32, u32)>, rest: CellSlice<'a>) -> Step<'a>
    ensures field { result.field ≡ None }
    ensures condition { result.condition ≡ condition }
    ensures rest { result.rest ≡ rest.entry }
{
    Step {
        field: None,
        condition,
        rest,
    }
}

/// Keeps a field, if there is one.
pub fn keep(fields: &mut Items<(Name, Value)>, field: Option<(Name, Value)>) -> Result<(), NoMemory>
    ensures { OnOk result (map pair_of fields.new
        ≡ map pair_of fields.old ++ option_to_list (option_map pair_of field)) }
{
    if let Some(field) = field {
        fields.push(field)?;
    }
    Ok(())
}

/// Sets the slots of a field to its outputs.
pub fn bind_outputs(flat: &Flat, ty: u32, slot: u32, outputs: &Outputs, env: &mut Env)
    requires flat { IsFlat flat.now }
    requires there { ty < length flat.now.types }
    ensures { (types : List (Option TheClosedType))
        → scopes.bind (sets (slot_of slot) (type_at flat.now ty)) (outputs_of outputs.now) (scope_of env.old types)
        ≡ scope_of env.new types }
{
    match outputs {
        Outputs::Empty => bind(flat, ty, slot, &[], env),
        Outputs::One(number) => bind(flat, ty, slot, &[*number], env),
        Outputs::Several(numbers) => bind(flat, ty, slot, numbers.as_slice(), env),
    }
}

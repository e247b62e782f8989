//! The cycle: a goal, a type, a reference, a repetition, a dictionary, a record.
//!
//! `levels` is how many levels of values are left, `begun` how many parts have begun, and places are those seen
//! from where a call began. A value takes a level and a part before its type is looked at.
ghost use Rattle.std.specs.Prelude.{◌≡◌, ◌+◌, ◌<◌, ◌≤◌, length, map, option_map, slice_get, true};
ghost use Rattle.std.specs.Prelude.{IfOk, IsSome, None, Some};
ghost use Rattle.closed_type.specs.View.{closed_args, closed_type as type_view};
ghost use Rattle.core_form.specs.Closed as closed;
ghost use Rattle.core_form.specs.Core.{Declaration, field_names};
ghost use Rattle.core_form.specs.Fit.{fit as fit_of};
ghost use Rattle.core_form.specs.Scope.{Scope};
ghost use Rattle.flat_form.specs.Sound.{OpIsSound, OpsAreSound};
ghost use Rattle.flat_form.specs.Stands.{items_in, record_at, type_at};
ghost use Rattle.hashmap_tree.specs.Adds.{pair_of as leaf_of, slice_of};
ghost use Rattle.plan_closing.specs.Counted.{scope_of};
ghost use Rattle.plan_reading.specs.Shaped.{GovernIsSound, IsRecord, governed};
ghost use Rattle.plan_reading.specs.Stops.{Gives};
ghost use Rattle.spelling.specs.Goals as goals;
ghost use Rattle.spelling.specs.Places.{Spot, start};
ghost use Rattle.spelling.specs.PlainReader as plain;
ghost use Rattle.spelling.specs.Spells.{next_bit};
ghost use Rattle.typed_value.specs.Values as forms;
ghost use Rattle.typed_value.specs.View.{names_in, pair_of, pairs_of, value as value_view};
ghost use Rattle.typed_reader.specs.Begun.{entered};
ghost use Rattle.typed_reader.specs.Turns.{turn};
ghost use Rattle.typed_reader.specs.View.{core_of, found_view, given, named_by, outputs_of, reader_of, values_of};

use crate::found::{Found, Outputs, Step};
use crate::parts::{
    alone, begin, bind_outputs, dict_of, is_nothing, is_whole, keep, list_of, ordinary_content,
    read_int, read_number, read_rest, read_string, read_uint, record_of, size, stop_of, took,
    without_field,
};
use bit_slice::{BitString, Name};
use cell_nodes::{Cell, CellSlice, Mode};
use closed_type::{ClosedArg, ClosedType};
use field_plan::Plan;
use flat_form::PlanOp;
use hashmap_labels::length_width;
use hashmap_tree::Walk;
use nat_solver::Env;
use plan_reading::{
    FlatShape, ShapeError, StopError, check, first_edge, fit, in_constructor, in_field, in_table,
    set, shape, sought, stop_at_item, stop_at_result, stop_here, unseen, values, walk_root,
};
use spelling::Cause;
use sqlite_items::{Boxed, Items};
use std::alloc::Global;
use typed_value::Value;

/// A value of a closed type.
#[cycle(read)]
pub fn read_closed<'a>(
    alloc: Global,
    plan: &Plan,
    mode: Mode,
    levels: u32,
    begun: &mut u32,
    ty: &ClosedType,
    s: CellSlice<'a>,
) -> Result<Found<'a>, StopError>
    ensures gives { (h : Spot) → Gives h found_view result
        (reader_of levels mode plan.now.0 h (goals.at_type (type_view ty.now)) begun.old (slice_of s.entry)) }
    ensures counts { IfOk result (λ x. begun.new ≡ begun.old + forms.parts (value_view x.value)) }
{
    begin(alloc, levels, begun)?;
    if !in_table(ty) {
        return Err(stop_here(alloc, Cause::Width));
    }
    read_type(alloc, plan, mode, levels - 1, begun, ty, s)
}

/// The value of a field of this type, under a condition or none.
#[cycle(read)]
fn read_field<'a>(
    alloc: Global,
    plan: &Plan,
    mode: Mode,
    levels: u32,
    begun: &mut u32,
    condition: Option<(u32, u32)>,
    ty: u32,
    env: &Env,
    types: &[Option<ClosedType>],
    s: CellSlice<'a>,
) -> Result<Found<'a>, StopError>
    requires there { ty < length plan.now.1.types }
    requires condition { GovernIsSound plan.now.1 condition }
    ensures gives { (h : Spot) → Gives h found_view result
        (reader_of levels mode plan.now.0 h
        (goals.at_field (governed plan.now.1 condition) (type_at plan.now.1 ty) (scope_of env.now types.now))
        begun.old (slice_of s.entry)) }
    ensures counts { IfOk result (λ x. begun.new ≡ begun.old + forms.parts (value_view x.value)) }
{
    begin(alloc, levels, begun)?;
    let left = levels - 1;
    match shape(alloc, plan.flat(), condition, ty, env, types) {
        Err(ShapeError::NoMemory) => Err(StopError::NoMemory),
        Err(ShapeError::Refused(cause)) => Err(stop_here(alloc, cause)),
        Ok(FlatShape::LeftOut) => Ok(alone(Value::Absent, s)),
        Ok(FlatShape::Typed(closed)) => read_type(alloc, plan, mode, left, begun, &closed, s),
        Ok(FlatShape::Here(first, count)) => {
            let ops = plan.flat().operations(first, count);
            let mut inner = env.copy(alloc)?;
            let (fields, rest) = read_fields(
                alloc, plan, mode, left, begun, ops, &mut inner, types, s,
            )?;
            Ok(alone(record_of(None, fields), rest))
        }
        Ok(FlatShape::Under(first, count)) => {
            read_fields_under(alloc, plan, mode, left, begun, first, count, env, types, s)
        }
    }
}

/// A record under `^`.
#[cycle(read)]
fn read_fields_under<'a>(
    alloc: Global,
    plan: &Plan,
    mode: Mode,
    levels: u32,
    begun: &mut u32,
    first: u32,
    count: u32,
    env: &Env,
    types: &[Option<ClosedType>],
    s: CellSlice<'a>,
) -> Result<Found<'a>, StopError>
    requires { IsRecord plan.now.1 (length plan.now.1.types) first count }
    ensures gives { (h : Spot) → Gives h found_view result
        (plain.read_ref mode (reader_of levels mode plan.now.0) h
        (goals.at_fields (record_at plan.now.1 first count) (scope_of env.now types.now))
        begun.old (slice_of s.entry).bits (slice_of s.entry).refs) }
    ensures counts { IfOk result (λ x. begun.new + 1 ≡ begun.old + forms.parts (value_view x.value)) }
{
    let CellSlice { bits, refs } = s;
    let Some((cell, refs)) = refs.first() else {
        return Err(stop_here(alloc, Cause::ShortRefs));
    };
    let rest = CellSlice { bits, refs };
    if let Some(hidden) = unseen(cell, mode) {
        return Ok(alone(Value::Unknown(hidden), rest));
    }
    let Some(content) = ordinary_content(cell) else {
        return Err(stop_here(alloc, Cause::Exotic));
    };
    // The record is a value of its own, with a level and a part.
    begin(alloc, levels, begun)?;
    let ops = plan.flat().operations(first, count);
    let mut inner = env.copy(alloc)?;
    let (fields, left) = read_fields(
        alloc,
        plan,
        mode,
        levels - 1,
        begun,
        ops,
        &mut inner,
        types,
        content,
    )?;
    if !is_nothing(&left) {
        return Err(stop_here(alloc, Cause::Leftover));
    }
    let record = Boxed::new(alloc, record_of(None, fields))?;
    Ok(alone(Value::Ref(record), rest))
}

/// A value of a closed type whose width is in the table, which has taken its level and its part.
#[cycle(read)]
fn read_type<'a>(
    alloc: Global,
    plan: &Plan,
    mode: Mode,
    levels: u32,
    begun: &mut u32,
    ty: &ClosedType,
    s: CellSlice<'a>,
) -> Result<Found<'a>, StopError>
    requires { goals.in_table (type_view ty.now) ≡ true }
    ensures gives { (h : Spot) → Gives h found_view result
        (plain.read_type mode (core_of plan.now.0) (reader_of levels mode plan.now.0) h
        (type_view ty.now) begun.old (slice_of s.entry)) }
    ensures counts { IfOk result (λ x. begun.new + 1 ≡ begun.old + forms.parts (value_view x.value)) }
{
    match ty {
        ClosedType::Nat32 => read_number(alloc, 32, 4_294_967_296, s),
        ClosedType::Bits(n) => read_number(alloc, *n, 1u64 << *n, s),
        ClosedType::Below(n) => read_number(
            alloc,
            length_width(n.saturating_sub(1)),
            u64::from(*n),
            s,
        ),
        ClosedType::UpTo(n) => read_number(alloc, length_width(*n), u64::from(*n) + 1, s),
        ClosedType::Uint(n) => read_uint(alloc, *n, s),
        ClosedType::Int(n) => read_int(alloc, *n, s),
        ClosedType::BitStr(n) => read_string(alloc, *n, s),
        ClosedType::Whole => read_rest(alloc, s),
        ClosedType::Ref(inner) => read_ref(alloc, plan, mode, levels, begun, inner.get(), s),
        ClosedType::Repeat(n, inner) => {
            read_repeat(alloc, plan, mode, levels, begun, *n, inner.get(), s)
        }
        ClosedType::Dict(n, inner) => {
            read_dict(alloc, plan, mode, levels, begun, *n, inner.get(), s)
        }
        ClosedType::DictE(n, inner) => {
            read_dict_e(alloc, plan, mode, levels, begun, *n, inner.get(), s)
        }
        ClosedType::Named(name, args) => {
            read_declared(alloc, plan, mode, levels, begun, name, args.as_slice(), s)
        }
    }
}

/// The value of a reference.
#[cycle(read)]
fn read_ref<'a>(
    alloc: Global,
    plan: &Plan,
    mode: Mode,
    levels: u32,
    begun: &mut u32,
    inner: &ClosedType,
    s: CellSlice<'a>,
) -> Result<Found<'a>, StopError>
    ensures gives { (h : Spot) → Gives h found_view result
        (plain.read_ref mode (reader_of levels mode plan.now.0) h
        (goals.under_ref (type_view inner.now)) begun.old (slice_of s.entry).bits (slice_of s.entry).refs) }
    ensures counts { IfOk result (λ x. begun.new + 1 ≡ begun.old + forms.parts (value_view x.value)) }
{
    let CellSlice { bits, refs } = s;
    let Some((cell, refs)) = refs.first() else {
        return Err(stop_here(alloc, Cause::ShortRefs));
    };
    let rest = CellSlice { bits, refs };
    if let Some(hidden) = unseen(cell, mode) {
        return Ok(alone(Value::Unknown(hidden), rest));
    }
    let held = read_cell(alloc, plan, mode, levels, begun, inner, cell)?;
    Ok(alone(Value::Ref(Boxed::new(alloc, held)?), rest))
}

/// What a cell holds under `^` of this type: of Any and Cell the cell as it is, of others the value that all of an
/// ordinary cell spells.
#[cycle(read)]
pub fn read_cell(
    alloc: Global,
    plan: &Plan,
    mode: Mode,
    levels: u32,
    begun: &mut u32,
    inner: &ClosedType,
    cell: &Cell,
) -> Result<Value, StopError>
    ensures gives { (h : Spot) → Gives h value_view result
        (plain.cell_value (reader_of levels mode plan.now.0) h
        (goals.under_ref (type_view inner.now)) begun.old cell.now) }
    ensures counts { IfOk result (λ v. begun.new ≡ begun.old + forms.parts (value_view v)) }
{
    if is_whole(inner) {
        begin(alloc, levels, begun)?;
        return Ok(Value::Raw(cell.share()?));
    }
    let Some(content) = ordinary_content(cell) else {
        return Err(stop_here(alloc, Cause::Exotic));
    };
    read_whole(alloc, plan, mode, levels, begun, inner, content)
}

/// The value that the whole of a slice spells.
#[cycle(read)]
fn read_whole(
    alloc: Global,
    plan: &Plan,
    mode: Mode,
    levels: u32,
    begun: &mut u32,
    ty: &ClosedType,
    s: CellSlice<'_>,
) -> Result<Value, StopError>
    ensures gives { (h : Spot) → Gives h value_view result
        (plain.whole_of (reader_of levels mode plan.now.0) h
        (goals.at_type (type_view ty.now)) begun.old (slice_of s.entry)) }
    ensures counts { IfOk result (λ v. begun.new ≡ begun.old + forms.parts (value_view v)) }
{
    let found = read_closed(alloc, plan, mode, levels, begun, ty, s)?;
    if !is_nothing(&found.rest) {
        return Err(stop_here(alloc, Cause::Leftover));
    }
    Ok(found.value)
}

/// So many values one after the other, each of which takes a bit or a reference.
#[cycle(read)]
fn read_repeat<'a>(
    alloc: Global,
    plan: &Plan,
    mode: Mode,
    levels: u32,
    begun: &mut u32,
    count: u32,
    inner: &ClosedType,
    s: CellSlice<'a>,
) -> Result<Found<'a>, StopError>
    ensures gives { (h : Spot) → Gives h found_view result
        (plain.read_type mode (core_of plan.now.0) (reader_of levels mode plan.now.0) h
        (closed.repeat count (type_view inner.now)) begun.old (slice_of s.entry)) }
    ensures counts { IfOk result (λ x. begun.new + 1 ≡ begun.old + forms.parts (value_view x.value)) }
{
    let mut items = Items::new(alloc);
    let mut left = s;
    for _item in 0..count {
        let before = size(&left);
        let found = read_closed(alloc, plan, mode, levels, begun, inner, left)?;
        if !took(before, &found.rest) {
            return Err(stop_here(alloc, Cause::Idle));
        }
        items.push(found.value)?;
        left = found.rest;
    }
    Ok(alone(list_of(items), left))
}

/// A dictionary in place: its first edge stands here.
#[cycle(read)]
fn read_dict<'a>(
    alloc: Global,
    plan: &Plan,
    mode: Mode,
    levels: u32,
    begun: &mut u32,
    n: u32,
    inner: &ClosedType,
    s: CellSlice<'a>,
) -> Result<Found<'a>, StopError>
    requires { n ≤ 1023 }
    ensures gives { (h : Spot) → Gives h found_view result
        (plain.read_dict mode (reader_of levels mode plan.now.0) h
        n (type_view inner.now) begun.old (slice_of s.entry)) }
    ensures counts { IfOk result (λ x. begun.new + 1 ≡ begun.old + forms.parts (value_view x.value)) }
{
    let walk = match first_edge(alloc, s, n, mode) {
        Ok(walk) => walk,
        Err(error) => return Err(stop_of(alloc, error)),
    };
    let Walk {
        pairs: mut leaves,
        unknown,
        rest,
        inline,
    } = walk;
    if !inline {
        let pairs = read_leaves(alloc, plan, mode, levels, begun, inner, leaves)?;
        return Ok(alone(dict_of(pairs, Items::from_vec(unknown)), rest));
    }
    // The value of the one leaf goes on in place.
    let Some((key, _)) = leaves.pop() else {
        unreachable!()
    };
    let found = read_closed(alloc, plan, mode, levels, begun, inner, rest)?;
    let mut pairs = Items::new(alloc);
    pairs.push((key, found.value))?;
    Ok(alone(dict_of(pairs, Items::new(alloc)), found.rest))
}

/// A dictionary that may be empty: a bit, and where it is 1 a reference to its first edge.
#[cycle(read)]
fn read_dict_e<'a>(
    alloc: Global,
    plan: &Plan,
    mode: Mode,
    levels: u32,
    begun: &mut u32,
    n: u32,
    inner: &ClosedType,
    s: CellSlice<'a>,
) -> Result<Found<'a>, StopError>
    requires { n ≤ 1023 }
    ensures gives { (h : Spot) → Gives h found_view result
        (plain.by_bit mode (reader_of levels mode plan.now.0) h
        n (type_view inner.now) begun.old (next_bit (slice_of s.entry).bits) (slice_of s.entry).refs) }
    ensures counts { IfOk result (λ x. begun.new + 1 ≡ begun.old + forms.parts (value_view x.value)) }
{
    let CellSlice { bits, refs } = s;
    let Some((bit, bits)) = bits.take(1) else {
        return Err(stop_here(alloc, Cause::ShortBits));
    };
    if !bit.known_bit(0) {
        let value = dict_of(Items::new(alloc), Items::new(alloc));
        return Ok(alone(value, CellSlice { bits, refs }));
    }
    let Some((cell, refs)) = refs.first() else {
        return Err(stop_here(alloc, Cause::ShortRefs));
    };
    let walk = match walk_root(alloc, cell, n, mode) {
        Ok(walk) => walk,
        Err(error) => return Err(stop_of(alloc, error)),
    };
    let Walk { pairs, unknown, .. } = walk;
    let pairs = read_leaves(alloc, plan, mode, levels, begun, inner, pairs)?;
    let value = dict_of(pairs, Items::from_vec(unknown));
    Ok(alone(value, CellSlice { bits, refs }))
}

/// The values of leaves by key, in order.
#[cycle(read)]
fn read_leaves(
    alloc: Global,
    plan: &Plan,
    mode: Mode,
    levels: u32,
    begun: &mut u32,
    inner: &ClosedType,
    leaves: Vec<(BitString, CellSlice<'_>)>,
) -> Result<Items<(BitString, Value)>, StopError>
    ensures gives { (h : Spot) → Gives h (λ ps. pairs_of (map pair_of ps)) result
        (plain.leaf_values (reader_of levels mode plan.now.0) h
        (type_view inner.now) begun.old (map leaf_of leaves.entry.items)) }
    ensures counts { IfOk result (λ ps. begun.new ≡ begun.old + forms.parts_by (pairs_of (map pair_of ps))) }
{
    let mut pairs = Items::new(alloc);
    for (key, content) in leaves {
        let value = read_whole(alloc, plan, mode, levels, begun, inner, content)?;
        pairs.push((key, value))?;
    }
    Ok(pairs)
}

/// A value of a declared type: that of the constructor which fits and of which a lead begins the bits.
#[cycle(read)]
fn read_declared<'a>(
    alloc: Global,
    plan: &Plan,
    mode: Mode,
    levels: u32,
    begun: &mut u32,
    name: &Name,
    args: &[ClosedArg],
    s: CellSlice<'a>,
) -> Result<Found<'a>, StopError>
    ensures gives { (h : Spot) → Gives h found_view result
        (plain.read_declared (reader_of levels mode plan.now.0) h
        (plain.choose (core_of plan.now.0) (core_of plan.now.0) name.now (closed_args args.now) (slice_of s.entry).bits)
        begun.old (slice_of s.entry)) }
    ensures counts { IfOk result (λ x. begun.new + 1 ≡ begun.old + forms.parts (value_view x.value)) }
{
    // The lists have as many constructors as the schema.
    let _flat = plan.flat();
    let CellSlice { bits, refs } = s;
    let Some(c) = plan.choose(name, args, bits.again()) else {
        return Err(stop_here(alloc, Cause::NoConstructor));
    };
    let Some((_, bits)) = bits.take(plan.tag(c).len()) else {
        unreachable!()
    };
    let after_tag = CellSlice { bits, refs };
    match read_constructor(alloc, plan, mode, levels, begun, c, args, after_tag) {
        Ok((fields, outputs, rest)) => {
            let shown = plan.shown_name(c).copy(alloc)?;
            Ok(Found {
                value: record_of(Some(shown), fields),
                outputs,
                rest,
            })
        }
        Err(error) => Err(in_constructor(alloc, name, plan.number(c), error)),
    }
}

/// The fields of a constructor and its outputs, after its tag. It fits the arguments.
#[cycle(read)]
fn read_constructor<'a>(
    alloc: Global,
    plan: &Plan,
    mode: Mode,
    levels: u32,
    begun: &mut u32,
    c: u32,
    args: &[ClosedArg],
    s: CellSlice<'a>,
) -> Result<(Items<(Name, Value)>, Outputs, CellSlice<'a>), StopError>
    requires there { c < length plan.now.2 }
    requires fits { (d : Declaration) → slice_get (core_of plan.now.0) c ≡ Some d
        → IsSome (fit_of d.core (closed_args args.now)) }
    ensures gives { (d : Declaration) (scope : Scope) → slice_get (core_of plan.now.0) c ≡ Some d
        → fit_of d.core (closed_args args.now) ≡ Some scope
        → Gives (start d) (λ x. (
          forms.record_of (Some d.shown) (names_in (map pair_of x.0)) (values_of x.0),
          outputs_of x.1,
          slice_of x.2,
        )) result
        (entered (reader_of levels mode plan.now.0) d scope begun.old (slice_of s.entry)) }
    ensures counts { IfOk result (λ x. begun.new ≡ begun.old + forms.parts_in (values_of x.0)) }
{
    let flat = plan.flat();
    let entry = plan.entry(c);
    let inputs = plan.inputs(c);
    let Some(mut slots) = fit(alloc, inputs, args, entry.slots)? else {
        unreachable!()
    };
    let ops = flat.operations(entry.first, entry.count);
    let types = slots.types.as_slice();
    let (fields, rest) = read_fields(
        alloc,
        plan,
        mode,
        levels,
        begun,
        ops,
        &mut slots.numbers,
        types,
        s,
    )?;
    match values(alloc, flat, plan.outputs(c), &slots.numbers)? {
        None => Err(stop_at_result(alloc, Cause::Overflow)),
        Some(outputs) => Ok((fields, Outputs::Several(outputs), rest)),
    }
}

/// The fields of a record, of which the operations are these, and what is left. The slots that they bind are set.
#[cycle(read)]
fn read_fields<'a>(
    alloc: Global,
    plan: &Plan,
    mode: Mode,
    levels: u32,
    begun: &mut u32,
    ops: &[PlanOp],
    env: &mut Env,
    types: &[Option<ClosedType>],
    s: CellSlice<'a>,
) -> Result<(Items<(Name, Value)>, CellSlice<'a>), StopError>
    requires { OpsAreSound plan.now.1 (length plan.now.1.types) ops.now }
    ensures gives { (h : Spot) → Gives h (λ x. (values_of x.0, scope_of env.new types.now, slice_of x.1)) result
        (plain.read_fields (reader_of levels mode plan.now.0) h
        (items_in plan.now.1 (type_at plan.now.1) None ops.now) (scope_of env.old types.now)
        begun.old (slice_of s.entry)) }
    ensures names { IfOk result (λ x. names_in (map pair_of x.0)
        ≡ field_names (items_in plan.now.1 (type_at plan.now.1) None ops.now)) }
    ensures counts { IfOk result (λ x. begun.new ≡ begun.old + forms.parts_in (values_of x.0)) }
{
    let mut fields = Items::new(alloc);
    let mut condition = None;
    let mut left = s;
    for op in ops {
        let step = read_op(
            alloc, plan, mode, levels, begun, *op, condition, env, types, left,
        )?;
        keep(&mut fields, step.field)?;
        condition = step.condition;
        left = step.rest;
    }
    Ok((fields, left))
}

/// One operation of a record, under the condition that the operation before it sets, if it sets one.
#[cycle(read)]
fn read_op<'a>(
    alloc: Global,
    plan: &Plan,
    mode: Mode,
    levels: u32,
    begun: &mut u32,
    op: PlanOp,
    condition: Option<(u32, u32)>,
    env: &mut Env,
    types: &[Option<ClosedType>],
    s: CellSlice<'a>,
) -> Result<Step<'a>, StopError>
    requires sound { OpIsSound plan.now.1 (length plan.now.1.types) op }
    requires condition { GovernIsSound plan.now.1 condition }
    ensures turn { (h : Spot) → Gives h
        (λ x. (
          record {
            gives = given x.field;
            scope = scope_of env.new types.now;
            begun = begun.new;
            left = slice_of x.rest;
          },
          governed plan.now.1 x.condition,
        )) result
        (turn (reader_of levels mode plan.now.0) h plan.now.1 (governed plan.now.1 condition) op
        (scope_of env.old types.now) begun.old (slice_of s.entry)) }
    ensures name { IfOk result (λ x. option_map (λ f. f.0) x.field ≡ named_by plan.now.1 op) }
    ensures condition { IfOk result (λ x. GovernIsSound plan.now.1 x.condition) }
{
    let flat = plan.flat();
    match op {
        PlanOp::Check(left, op, right, place) => match check(flat, left, op, right, env) {
            Ok(()) => Ok(without_field(None, s)),
            Err(cause) => Err(stop_at_item(alloc, place, cause)),
        },
        PlanOp::Solve(slot, left, right, place) => match sought(flat, slot, left, right, env) {
            Ok(number) => {
                set(env, slot, number);
                Ok(without_field(None, s))
            }
            Err(cause) => Err(stop_at_item(alloc, place, cause)),
        },
        PlanOp::When(number, bit) => Ok(without_field(Some((number, bit)), s)),
        PlanOp::Field(name, ty, slot) => {
            let name = flat.name(name);
            match read_field(
                alloc, plan, mode, levels, begun, condition, ty, env, types, s,
            ) {
                Err(error) => Err(in_field(alloc, name, error)),
                Ok(found) => {
                    bind_outputs(flat, ty, slot, &found.outputs, env);
                    Ok(Step {
                        field: Some((name.copy(alloc)?, found.value)),
                        condition: None,
                        rest: found.rest,
                    })
                }
            }
        }
    }
}

//! The cycle: a goal, a type, a reference, a repetition, a dictionary, a record.
//!
//! `levels` is how many levels of values are left, `begun` how many parts have begun, and places are those seen from
//! where a call began. A value takes a level and a part before its type is looked at. What is built is added to `b`;
//! after an error that holds what was added before.
ghost use Rattle.std.specs.Prelude.{◌≡◌, ◌+◌, ◌<◌, ◌≤◌, [], ℕ, length, map, slice_get, true};
ghost use Rattle.std.specs.Prelude.{IfOk, OnOk, IsSome, None, Some};
ghost use Rattle.closed_type.specs.View.{closed_args, closed_type as type_view};
ghost use Rattle.core_form.specs.Closed as closed;
ghost use Rattle.core_form.specs.Core.{Declaration};
ghost use Rattle.core_form.specs.Fit.{fit as fit_of};
ghost use Rattle.core_form.specs.Scope.{Scope};
ghost use Rattle.flat_form.specs.Sound.{OpIsSound, OpsAreSound};
ghost use Rattle.flat_form.specs.Stands.{items_in, record_at, type_at};
ghost use Rattle.building.specs.PlainBuilder as plain;
ghost use Rattle.plan_building.specs.View.{grown, leaf_of, made};
ghost use Rattle.plan_closing.specs.Counted.{scope_of};
ghost use Rattle.plan_reading.specs.Shaped.{GovernIsSound, IsRecord, governed};
ghost use Rattle.plan_reading.specs.Stops.{Gives};
ghost use Rattle.spelling.specs.Goals as goals;
ghost use Rattle.spelling.specs.Places.{Spot, start};
ghost use Rattle.typed_value.specs.Values as forms;
ghost use Rattle.typed_value.specs.View.{names_in, pair_of, pairs_of, value as value_view};
ghost use Rattle.typed_builder.specs.Turns.{stepped, turn};
ghost use Rattle.typed_builder.specs.View.{built_cell, core_of, list_of, maker_of, values_of};

use crate::dicts::{add_below, add_here, add_leaf, fits_below, fits_here};
use crate::forms::{has_count, inner_fields, is_whole, left_out, next_field, refuse, whole_cell};
use crate::records::{fitted, has_all, inner_operations, operations, put_tag, results};
use crate::types::{declared, put_left, put_unknown, referred, repeated};
use bit_slice::{BitString, Name};
use cell_nodes::{Cell, Mode};
use closed_type::{ClosedArg, ClosedType};
use field_plan::Plan;
use flat_form::PlanOp;
use nat_solver::Env;
use plan_building::{
    Growing, Outputs, begin, bind_outputs, grew, make_number, make_string, put_hidden, put_ref,
};
use plan_reading::{
    FlatShape, ShapeError, StopError, check, in_constructor, in_field, in_table, set, shape,
    sought, stop_at_item, stop_at_result, stop_here,
};
use spelling::Cause;
use std::alloc::Global;
use tlb_memory::NoMemory;
use typed_value::{Dict, Record, Value};

/// What one operation leaves: the condition of the next operation, and the fields that are due.
#[derive(Drop)]
struct Step<'a> {
    condition: Option<(u32, u32)>,
    due: &'a [(Name, Value)],
}

/// A value of a closed type.
#[cycle(build)]
fn build_closed(
    alloc: Global,
    plan: &Plan,
    mode: Mode,
    levels: u32,
    begun: &mut u32,
    ty: &ClosedType,
    value: &Value,
    b: &mut Growing,
) -> Result<Outputs, StopError>
    ensures gives { (h : Spot) → Gives h (made b.new) result
        (maker_of levels mode plan.now.0 h (goals.at_type (type_view ty.now)) begun.old (value_view value.now)
        (grown b.old)) }
    ensures counts { OnOk result (begun.new ≡ begun.old + forms.parts (value_view value.now)) }
{
    begin(alloc, levels, begun)?;
    if !in_table(ty) {
        return Err(stop_here(alloc, Cause::Width));
    }
    build_type(alloc, plan, mode, levels - 1, begun, ty, value, b)
}

/// The value of a field of this type, under a condition or none.
#[cycle(build)]
fn build_field(
    alloc: Global,
    plan: &Plan,
    mode: Mode,
    levels: u32,
    begun: &mut u32,
    condition: Option<(u32, u32)>,
    ty: u32,
    env: &Env,
    types: &[Option<ClosedType>],
    value: &Value,
    b: &mut Growing,
) -> Result<Outputs, StopError>
    requires there { ty < length plan.now.1.types }
    requires condition { GovernIsSound plan.now.1 condition }
    ensures gives { (h : Spot) → Gives h (made b.new) result
        (maker_of levels mode plan.now.0 h
        (goals.at_field (governed plan.now.1 condition) (type_at plan.now.1 ty) (scope_of env.now types.now))
        begun.old (value_view value.now) (grown b.old)) }
    ensures counts { OnOk result (begun.new ≡ begun.old + forms.parts (value_view value.now)) }
{
    begin(alloc, levels, begun)?;
    let left = levels - 1;
    match shape(alloc, plan.flat(), condition, ty, env, types) {
        Err(ShapeError::NoMemory) => Err(StopError::NoMemory),
        Err(ShapeError::Refused(cause)) => Err(stop_here(alloc, cause)),
        Ok(FlatShape::LeftOut) => left_out(alloc, value),
        Ok(FlatShape::Typed(closed)) => {
            build_type(alloc, plan, mode, left, begun, &closed, value, b)
        }
        Ok(FlatShape::Here(first, count)) => build_inner(
            alloc, plan, mode, left, begun, first, count, env, types, value, b,
        ),
        Ok(FlatShape::Under(first, count)) => build_under(
            alloc, plan, mode, left, begun, first, count, env, types, value, b,
        ),
    }
}

/// A record in a record, which has taken its level and its part.
#[cycle(build)]
fn build_inner(
    alloc: Global,
    plan: &Plan,
    mode: Mode,
    levels: u32,
    begun: &mut u32,
    first: u32,
    count: u32,
    env: &Env,
    types: &[Option<ClosedType>],
    value: &Value,
    b: &mut Growing,
) -> Result<Outputs, StopError>
    requires { IsRecord plan.now.1 (length plan.now.1.types) first count }
    ensures gives { (h : Spot) → Gives h (made b.new) result
        (plain.make_shape mode (core_of plan.now.0) (maker_of levels mode plan.now.0) h
        (goals.fields_here (record_at plan.now.1 first count) (scope_of env.now types.now)) begun.old
        (value_view value.now) (grown b.old)) }
    ensures counts { OnOk result (begun.new + 1 ≡ begun.old + forms.parts (value_view value.now)) }
{
    let Some(fields) = inner_fields(value) else {
        return Err(stop_here(alloc, Cause::Shape));
    };
    let ops = inner_operations(plan, first, count);
    if !has_all(plan, ops, fields) {
        return Err(stop_here(alloc, Cause::Shape));
    }
    let mut inner = env.copy(alloc)?;
    build_fields(
        alloc, plan, mode, levels, begun, ops, &mut inner, types, fields, b,
    )?;
    Ok(Outputs::Empty)
}

/// A record in a record under `^`.
#[cycle(build)]
fn build_under(
    alloc: Global,
    plan: &Plan,
    mode: Mode,
    levels: u32,
    begun: &mut u32,
    first: u32,
    count: u32,
    env: &Env,
    types: &[Option<ClosedType>],
    value: &Value,
    b: &mut Growing,
) -> Result<Outputs, StopError>
    requires { IsRecord plan.now.1 (length plan.now.1.types) first count }
    ensures gives { (h : Spot) → Gives h (made b.new) result
        (plain.make_shape mode (core_of plan.now.0) (maker_of levels mode plan.now.0) h
        (goals.fields_under (record_at plan.now.1 first count) (scope_of env.now types.now)) begun.old
        (value_view value.now) (grown b.old)) }
    ensures counts { OnOk result (begun.new + 1 ≡ begun.old + forms.parts (value_view value.now)) }
{
    match value {
        Value::Ref(held) => build_record_ref(
            alloc,
            plan,
            mode,
            levels,
            begun,
            first,
            count,
            env,
            types,
            held.get(),
            b,
        ),
        Value::Unknown(hidden) => put_hidden(alloc, mode, *hidden, b),
        _ => Err(refuse(alloc, Cause::Shape)),
    }
}

/// The reference to a cell that holds just a record in a record.
#[cycle(build)]
fn build_record_ref(
    alloc: Global,
    plan: &Plan,
    mode: Mode,
    levels: u32,
    begun: &mut u32,
    first: u32,
    count: u32,
    env: &Env,
    types: &[Option<ClosedType>],
    value: &Value,
    b: &mut Growing,
) -> Result<Outputs, StopError>
    requires { IsRecord plan.now.1 (length plan.now.1.types) first count }
    ensures gives { (h : Spot) → Gives h (made b.new) result
        (plain.make_child (maker_of levels mode plan.now.0) h
        (goals.at_fields (record_at plan.now.1 first count) (scope_of env.now types.now)) begun.old
        (value_view value.now) (grown b.old)) }
    ensures counts { OnOk result (begun.new ≡ begun.old + forms.parts (value_view value.now)) }
{
    let cell = build_record_cell(
        alloc, plan, mode, levels, begun, first, count, env, types, value,
    )?;
    put_ref(alloc, cell, b)?;
    Ok(Outputs::Empty)
}

/// The ordinary cell that holds just a record in a record, which is a value of its own.
#[cycle(build)]
fn build_record_cell(
    alloc: Global,
    plan: &Plan,
    mode: Mode,
    levels: u32,
    begun: &mut u32,
    first: u32,
    count: u32,
    env: &Env,
    types: &[Option<ClosedType>],
    value: &Value,
) -> Result<Cell, StopError>
    requires { IsRecord plan.now.1 (length plan.now.1.types) first count }
    ensures gives { (h : Spot) → Gives h (λ c. c) result
        (built_cell (maker_of levels mode plan.now.0) h
        (goals.at_fields (record_at plan.now.1 first count) (scope_of env.now types.now)) begun.old
        (value_view value.now)) }
    ensures counts { OnOk result (begun.new ≡ begun.old + forms.parts (value_view value.now)) }
{
    begin(alloc, levels, begun)?;
    let mut content = Growing::new(alloc)?;
    build_inner(
        alloc,
        plan,
        mode,
        levels - 1,
        begun,
        first,
        count,
        env,
        types,
        value,
        &mut content,
    )?;
    Ok(content.finish(alloc)?)
}

/// A value of a closed type whose width is in the table, which has taken its level and its part.
#[cycle(build)]
fn build_type(
    alloc: Global,
    plan: &Plan,
    mode: Mode,
    levels: u32,
    begun: &mut u32,
    ty: &ClosedType,
    value: &Value,
    b: &mut Growing,
) -> Result<Outputs, StopError>
    requires { goals.in_table (type_view ty.now) ≡ true }
    ensures gives { (h : Spot) → Gives h (made b.new) result
        (plain.make_shape mode (core_of plan.now.0) (maker_of levels mode plan.now.0) h (goals.typed (type_view ty.now))
        begun.old (value_view value.now) (grown b.old)) }
    ensures counts { OnOk result (begun.new + 1 ≡ begun.old + forms.parts (value_view value.now)) }
{
    match value {
        Value::Number(number) => make_number(alloc, ty, *number, b),
        Value::Bits(bits) => make_string(alloc, ty, bits.slice(), b),
        Value::Record(held) => build_record(alloc, plan, mode, levels, begun, ty, held, b),
        Value::List(items) => {
            build_series(alloc, plan, mode, levels, begun, ty, items.as_slice(), b)
        }
        Value::Ref(held) => build_held(alloc, plan, mode, levels, begun, ty, held.get(), b),
        Value::Unknown(hidden) => put_unknown(alloc, mode, ty, *hidden, b),
        Value::Map(dict) => build_map(alloc, plan, mode, levels, begun, ty, dict, b),
        Value::Rest(rest) => put_left(alloc, ty, rest, b),
        Value::Absent | Value::Raw(_) => Err(refuse(alloc, Cause::Shape)),
    }
}

/// A record at a closed type.
#[cycle(build)]
fn build_record(
    alloc: Global,
    plan: &Plan,
    mode: Mode,
    levels: u32,
    begun: &mut u32,
    ty: &ClosedType,
    held: &Record,
    b: &mut Growing,
) -> Result<Outputs, StopError>
    ensures gives { (h : Spot) → Gives h (made b.new) result
        (plain.record_at (core_of plan.now.0) (maker_of levels mode plan.now.0) h (goals.typed (type_view ty.now))
        begun.old held.now.name (names_in (map pair_of held.now.fields)) (values_of held.now.fields) (grown b.old)) }
    ensures counts { OnOk result (begun.new ≡ begun.old + forms.parts_in (values_of held.now.fields)) }
{
    let Some((name, args)) = declared(ty) else {
        return Err(stop_here(alloc, Cause::Shape));
    };
    build_declared(alloc, plan, mode, levels, begun, name, args, held, b)
}

/// Values one after the other at a closed type.
#[cycle(build)]
fn build_series(
    alloc: Global,
    plan: &Plan,
    mode: Mode,
    levels: u32,
    begun: &mut u32,
    ty: &ClosedType,
    items: &[Value],
    b: &mut Growing,
) -> Result<Outputs, StopError>
    ensures gives { (h : Spot) → Gives h (made b.new) result
        (plain.list_at (maker_of levels mode plan.now.0) h (goals.typed (type_view ty.now)) begun.old
        (list_of items.now) (grown b.old)) }
    ensures counts { OnOk result (begun.new ≡ begun.old + forms.parts_in (list_of items.now)) }
{
    let Some((count, inner)) = repeated(ty) else {
        return Err(stop_here(alloc, Cause::Shape));
    };
    build_list(alloc, plan, mode, levels, begun, count, inner, items, b)
}

/// A reference at a closed type.
#[cycle(build)]
fn build_held(
    alloc: Global,
    plan: &Plan,
    mode: Mode,
    levels: u32,
    begun: &mut u32,
    ty: &ClosedType,
    value: &Value,
    b: &mut Growing,
) -> Result<Outputs, StopError>
    ensures gives { (h : Spot) → Gives h (made b.new) result
        (plain.ref_at (maker_of levels mode plan.now.0) h (goals.typed (type_view ty.now)) begun.old
        (value_view value.now) (grown b.old)) }
    ensures counts { OnOk result (begun.new ≡ begun.old + forms.parts (value_view value.now)) }
{
    let Some(inner) = referred(ty) else {
        return Err(stop_here(alloc, Cause::Shape));
    };
    build_ref(alloc, plan, mode, levels, begun, inner, value, b)
}

/// A dictionary at a closed type whose width is in the table.
#[cycle(build)]
fn build_map(
    alloc: Global,
    plan: &Plan,
    mode: Mode,
    levels: u32,
    begun: &mut u32,
    ty: &ClosedType,
    dict: &Dict,
    b: &mut Growing,
) -> Result<Outputs, StopError>
    requires { goals.in_table (type_view ty.now) ≡ true }
    ensures gives { (h : Spot) → Gives h (made b.new) result
        (plain.map_at mode (maker_of levels mode plan.now.0) h (goals.typed (type_view ty.now)) begun.old
        (pairs_of (map pair_of dict.now.pairs)) dict.now.unknown (grown b.old)) }
    ensures counts { OnOk result (begun.new ≡ begun.old + forms.parts_by (pairs_of (map pair_of dict.now.pairs))) }
{
    match ty {
        ClosedType::Dict(n, inner) => {
            build_dict(alloc, plan, mode, levels, begun, *n, inner.get(), dict, b)
        }
        ClosedType::DictE(n, inner) => {
            build_dict_e(alloc, plan, mode, levels, begun, *n, inner.get(), dict, b)
        }
        _ => Err(refuse(alloc, Cause::Shape)),
    }
}

/// The reference to a cell that holds just the value.
#[cycle(build)]
fn build_ref(
    alloc: Global,
    plan: &Plan,
    mode: Mode,
    levels: u32,
    begun: &mut u32,
    inner: &ClosedType,
    value: &Value,
    b: &mut Growing,
) -> Result<Outputs, StopError>
    ensures gives { (h : Spot) → Gives h (made b.new) result
        (plain.make_child (maker_of levels mode plan.now.0) h (goals.under_ref (type_view inner.now)) begun.old
        (value_view value.now) (grown b.old)) }
    ensures counts { OnOk result (begun.new ≡ begun.old + forms.parts (value_view value.now)) }
{
    let cell = build_cell(alloc, plan, mode, levels, begun, inner, value)?;
    put_ref(alloc, cell, b)?;
    Ok(Outputs::Empty)
}

/// The cell that a value is built to under `^` of this type: of Any and Cell the cell as it is, of others the ordinary
/// cell that holds just the value.
#[cycle(build)]
pub(crate) fn build_cell(
    alloc: Global,
    plan: &Plan,
    mode: Mode,
    levels: u32,
    begun: &mut u32,
    inner: &ClosedType,
    value: &Value,
) -> Result<Cell, StopError>
    ensures gives { (h : Spot) → Gives h (λ c. c) result
        (built_cell (maker_of levels mode plan.now.0) h (goals.under_ref (type_view inner.now)) begun.old
        (value_view value.now)) }
    ensures counts { OnOk result (begun.new ≡ begun.old + forms.parts (value_view value.now)) }
{
    if is_whole(inner) {
        begin(alloc, levels, begun)?;
        return whole_cell(alloc, mode, value);
    }
    let mut content = Growing::new(alloc)?;
    build_closed(alloc, plan, mode, levels, begun, inner, value, &mut content)?;
    Ok(content.finish(alloc)?)
}

/// So many values one after the other.
#[cycle(build)]
fn build_list(
    alloc: Global,
    plan: &Plan,
    mode: Mode,
    levels: u32,
    begun: &mut u32,
    count: u32,
    inner: &ClosedType,
    items: &[Value],
    b: &mut Growing,
) -> Result<Outputs, StopError>
    ensures gives { (h : Spot) → Gives h (made b.new) result
        (plain.list_at (maker_of levels mode plan.now.0) h (goals.typed (closed.repeat count (type_view inner.now)))
        begun.old (list_of items.now) (grown b.old)) }
    ensures counts { OnOk result (begun.new ≡ begun.old + forms.parts_in (list_of items.now)) }
{
    if !has_count(items, count) {
        return Err(stop_here(alloc, Cause::Shape));
    }
    build_items(alloc, plan, mode, levels, begun, inner, items, b)?;
    Ok(Outputs::Empty)
}

/// Values one after the other, each of which takes a bit or a reference.
#[cycle(build)]
fn build_items(
    alloc: Global,
    plan: &Plan,
    mode: Mode,
    levels: u32,
    begun: &mut u32,
    inner: &ClosedType,
    items: &[Value],
    b: &mut Growing,
) -> Result<(), StopError>
    ensures gives { (h : Spot) → Gives h (λ _. grown b.new) result
        (plain.make_items (maker_of levels mode plan.now.0) h (type_view inner.now) begun.old (list_of items.now)
        (grown b.old)) }
    ensures counts { OnOk result (begun.new ≡ begun.old + forms.parts_in (list_of items.now)) }
{
    for item in items {
        let before = b.size();
        build_closed(alloc, plan, mode, levels, begun, inner, item, b)?;
        if !grew(before, b) {
            return Err(stop_here(alloc, Cause::Idle));
        }
    }
    Ok(())
}

/// A dictionary in place.
#[cycle(build)]
fn build_dict(
    alloc: Global,
    plan: &Plan,
    mode: Mode,
    levels: u32,
    begun: &mut u32,
    n: u32,
    inner: &ClosedType,
    dict: &Dict,
    b: &mut Growing,
) -> Result<Outputs, StopError>
    requires { n ≤ 1023 }
    ensures gives { (h : Spot) → Gives h (made b.new) result
        (plain.make_dict mode (maker_of levels mode plan.now.0) h n (type_view inner.now) begun.old
        (pairs_of (map pair_of dict.now.pairs)) dict.now.unknown (grown b.old)) }
    ensures counts { OnOk result (begun.new ≡ begun.old + forms.parts_by (pairs_of (map pair_of dict.now.pairs))) }
{
    let fits = fits_here(alloc, mode, n, dict)?;
    if !fits {
        return Err(stop_here(alloc, Cause::Shape));
    }
    let pairs = dict.pairs.as_slice();
    let leaves = build_leaves(alloc, plan, mode, levels, begun, inner, pairs)?;
    add_here(alloc, n, leaves, dict, b)
}

/// A dictionary that may be empty.
#[cycle(build)]
fn build_dict_e(
    alloc: Global,
    plan: &Plan,
    mode: Mode,
    levels: u32,
    begun: &mut u32,
    n: u32,
    inner: &ClosedType,
    dict: &Dict,
    b: &mut Growing,
) -> Result<Outputs, StopError>
    requires { n ≤ 1023 }
    ensures gives { (h : Spot) → Gives h (made b.new) result
        (plain.make_dict_e mode (maker_of levels mode plan.now.0) h n (type_view inner.now) begun.old
        (pairs_of (map pair_of dict.now.pairs)) dict.now.unknown (grown b.old)) }
    ensures counts { OnOk result (begun.new ≡ begun.old + forms.parts_by (pairs_of (map pair_of dict.now.pairs))) }
{
    let fits = fits_below(alloc, mode, n, dict)?;
    if !fits {
        return Err(stop_here(alloc, Cause::Shape));
    }
    let pairs = dict.pairs.as_slice();
    let leaves = build_leaves(alloc, plan, mode, levels, begun, inner, pairs)?;
    add_below(alloc, n, leaves, dict, b)
}

/// The contents of leaves by key, in order.
#[cycle(build)]
fn build_leaves(
    alloc: Global,
    plan: &Plan,
    mode: Mode,
    levels: u32,
    begun: &mut u32,
    inner: &ClosedType,
    pairs: &[(BitString, Value)],
) -> Result<Vec<(BitString, Growing)>, StopError>
    ensures gives { (h : Spot) → Gives h (λ leaves. map leaf_of leaves.items) result
        (plain.make_leaves (maker_of levels mode plan.now.0) h (type_view inner.now) begun.old
        (pairs_of (map pair_of pairs.now))) }
    ensures counts { OnOk result (begun.new ≡ begun.old + forms.parts_by (pairs_of (map pair_of pairs.now))) }
{
    let mut leaves = Vec::new(alloc);
    for (key, value) in pairs {
        let mut content = Growing::new(alloc)?;
        build_closed(alloc, plan, mode, levels, begun, inner, value, &mut content)?;
        add_leaf(alloc, key, content, &mut leaves)?;
    }
    Ok(leaves)
}

/// A record of a declared type, by the constructor that is shown by its name.
#[cycle(build)]
fn build_declared(
    alloc: Global,
    plan: &Plan,
    mode: Mode,
    levels: u32,
    begun: &mut u32,
    name: &Name,
    args: &[ClosedArg],
    held: &Record,
    b: &mut Growing,
) -> Result<Outputs, StopError>
    ensures gives { (h : Spot) → Gives h (made b.new) result
        (plain.record_at (core_of plan.now.0) (maker_of levels mode plan.now.0) h
        (goals.typed (closed.named name.now (closed_args args.now))) begun.old held.now.name
        (names_in (map pair_of held.now.fields)) (values_of held.now.fields) (grown b.old)) }
    ensures counts { OnOk result (begun.new ≡ begun.old + forms.parts_in (values_of held.now.fields)) }
{
    // The lists have as many constructors as the schema.
    let _flat = plan.flat();
    let Some(shown) = &held.name else {
        return Err(stop_here(alloc, Cause::Shape));
    };
    let fields = held.fields.as_slice();
    let Some(c) = plan.named(name, args, shown) else {
        return Err(stop_here(alloc, Cause::NoConstructor));
    };
    let ops = operations(plan, c);
    if !has_all(plan, ops, fields) {
        return Err(stop_here(alloc, Cause::Shape));
    }
    match build_constructor(alloc, plan, mode, levels, begun, c, args, fields, b) {
        Ok(outputs) => Ok(outputs),
        Err(error) => Err(in_constructor(alloc, name, plan.number(c), error)),
    }
}

/// The tag, the fields and the outputs of a constructor. It fits the arguments.
#[cycle(build)]
fn build_constructor(
    alloc: Global,
    plan: &Plan,
    mode: Mode,
    levels: u32,
    begun: &mut u32,
    c: u32,
    args: &[ClosedArg],
    fields: &[(Name, Value)],
    b: &mut Growing,
) -> Result<Outputs, StopError>
    requires there { c < length plan.now.2 }
    requires fits { (d : Declaration) → slice_get (core_of plan.now.0) c ≡ Some d
        → IsSome (fit_of d.core (closed_args args.now)) }
    ensures gives { (d : Declaration) (scope : Scope) → slice_get (core_of plan.now.0) c ≡ Some d
        → fit_of d.core (closed_args args.now) ≡ Some scope
        → Gives (start d) (made b.new) result
        (plain.make_inside (maker_of levels mode plan.now.0) d scope begun.old (values_of fields.now) (grown b.old)) }
    ensures counts { OnOk result (begun.new ≡ begun.old + forms.parts_in (values_of fields.now)) }
{
    let mut slots = fitted(alloc, plan, c, args)?;
    put_tag(alloc, plan, c, b)?;
    let ops = operations(plan, c);
    build_fields(
        alloc,
        plan,
        mode,
        levels,
        begun,
        ops,
        &mut slots.numbers,
        slots.types.as_slice(),
        fields,
        b,
    )?;
    match results(alloc, plan, c, &slots.numbers)? {
        None => Err(stop_at_result(alloc, Cause::Overflow)),
        Some(outputs) => Ok(Outputs::Several(outputs)),
    }
}

/// The fields of a record, of which the operations are these. The slots that they bind are set.
#[cycle(build)]
fn build_fields(
    alloc: Global,
    plan: &Plan,
    mode: Mode,
    levels: u32,
    begun: &mut u32,
    ops: &[PlanOp],
    env: &mut Env,
    types: &[Option<ClosedType>],
    fields: &[(Name, Value)],
    b: &mut Growing,
) -> Result<(), StopError>
    requires { OpsAreSound plan.now.1 (length plan.now.1.types) ops.now }
    ensures gives { (h : Spot) → Gives h (λ _. (scope_of env.new types.now, grown b.new)) result
        (plain.make_fields (maker_of levels mode plan.now.0) h
        (items_in plan.now.1 (type_at plan.now.1) None ops.now) (scope_of env.old types.now) begun.old
        (values_of fields.now) (grown b.old)) }
    ensures counts { OnOk result (begun.new ≡ begun.old + forms.parts_in (values_of fields.now)) }
{
    let mut condition = None;
    let mut due = fields;
    for op in ops {
        let step = build_op(
            alloc, plan, mode, levels, begun, *op, condition, env, types, due, b,
        )?;
        condition = step.condition;
        due = step.due;
    }
    if !due.is_empty() {
        return Err(stop_here(alloc, Cause::Shape));
    }
    Ok(())
}

/// One operation of a record, under the condition that the operation before it sets, if it sets one.
#[cycle(build)]
fn build_op<'a>(
    alloc: Global,
    plan: &Plan,
    mode: Mode,
    levels: u32,
    begun: &mut u32,
    op: PlanOp,
    condition: Option<(u32, u32)>,
    env: &mut Env,
    types: &[Option<ClosedType>],
    fields: &'a [(Name, Value)],
    b: &mut Growing,
) -> Result<Step<'a>, StopError>
    requires sound { OpIsSound plan.now.1 (length plan.now.1.types) op }
    requires condition { GovernIsSound plan.now.1 condition }
    ensures turn { (h : Spot) → Gives h
        (λ x. (
          stepped (scope_of env.new types.now) begun.new (values_of x.due.now) (grown b.new),
          governed plan.now.1 x.condition,
        )) result
        (turn (maker_of levels mode plan.now.0) h plan.now.1 (governed plan.now.1 condition) op
        (scope_of env.old types.now) begun.old (values_of fields.now) (grown b.old)) }
    ensures condition { IfOk result (λ x. GovernIsSound plan.now.1 x.condition) }
    ensures counts { IfOk result (λ x. begun.new + forms.parts_in (values_of x.due.now)
        ≡ begun.old + forms.parts_in (values_of fields.now)) }
{
    let flat = plan.flat();
    match op {
        PlanOp::Check(left, op, right, place) => match check(flat, left, op, right, env) {
            Ok(()) => Ok(Step {
                condition: None,
                due: fields,
            }),
            Err(cause) => Err(stop_at_item(alloc, place, cause)),
        },
        PlanOp::Solve(slot, left, right, place) => match sought(flat, slot, left, right, env) {
            Ok(number) => {
                set(env, slot, number);
                Ok(Step {
                    condition: None,
                    due: fields,
                })
            }
            Err(cause) => Err(stop_at_item(alloc, place, cause)),
        },
        PlanOp::When(number, bit) => Ok(Step {
            condition: Some((number, bit)),
            due: fields,
        }),
        PlanOp::Field(name, ty, slot) => {
            let Some((value, due)) = next_field(fields) else {
                return Err(stop_here(alloc, Cause::Shape));
            };
            match build_field(
                alloc, plan, mode, levels, begun, condition, ty, env, types, value, b,
            ) {
                Err(error) => Err(in_field(alloc, flat.name(name), error)),
                Ok(outputs) => {
                    bind_outputs(flat, ty, slot, &outputs, env);
                    Ok(Step {
                        condition: None,
                        due,
                    })
                }
            }
        }
    }
}

//! The root.
ghost use Rattle.std.specs.Prelude.{◌≡◌, ◌≢◌, IfOk, reverse};
ghost use Rattle.accepted_schema.specs.Accepted.{kept_cores};
ghost use Rattle.cell_nodes.specs.declared.tree.Mode.TheVariants.{Lax};
ghost use Rattle.closed_type.specs.View.{closed_type as type_view};
ghost use Rattle.building.specs.PlainBuilder as plain;
ghost use Rattle.plan_reading.specs.Stops.{Gives};
ghost use Rattle.spelling.specs.Places.{at_root};
ghost use Rattle.tlb_syntax.specs.View.{schema as schema_view};
ghost use Rattle.typed_value.specs.Values as forms;
ghost use Rattle.typed_value.specs.View.{value as value_view};
ghost use Rattle.typed_builder.specs.Promise.{Answers, OnlyMemory, Placed};
ghost use Rattle.typed_builder.specs.View.{core_of};

use crate::builder::build_cell;
use crate::error::BuildError;
use crate::forms::is_ref;
use accepted_building::laws::{built_is_one, stops_at_one};
use cell_nodes::{Cell, Hidden, Mode};
use closed_type::ClosedType;
use field_path::{FieldPath, Part};
use field_plan::{Holder, Place, Plan};
use plan_building::in_range;
use plan_reading::{Entered, Stop, StopError, stop_here};
use spelling::Cause;
use sqlite_items::Items;
use std::alloc::Global;
use typed_value::Value;

/// The most levels of a value.
const MOST_LEVELS: u32 = 2_304;

/// The most cells of a tree, unfolded.
const MOST_CELLS: u32 = 262_144;

// The hidden part in place of the root: not where the type is itself a reference, which it is then in the root.
fn hides_root(mode: Mode, ty: &ClosedType, value: &Value) -> Option<Hidden>
    ensures { result ≡ plain.hides_root mode (type_view ty.now) (value_view value.now) }
{
    match mode {
        Mode::Partial => match value {
            Value::Unknown(hidden) => { if is_ref(ty) { None } else { Some(*hidden) } }
            _ => None,
        },
        Mode::Whole => None,
        Mode::Lax => None,
    }
}

// The pruned branch that stands in place of the root.
fn hidden_root(alloc: Global, hidden: Hidden) -> Result<Cell, StopError>
    ensures { Gives at_root (λ c. c) result (plain.hidden_root forms.most_levels forms.most_parts hidden) }
{
    if hidden.depth > 1024 {
        return Err(stop_here(alloc, Cause::TooDeep));
    }
    match Cell::pruned(alloc, &hidden.hash, hidden.depth) {
        Ok(cell) => Ok(cell),
        Err(_) => Err(StopError::NoMemory),
    }
}

// The root cell of any number of cells.
fn built_root(
    alloc: Global,
    plan: &Plan,
    ty: &ClosedType,
    value: &Value,
    mode: Mode,
) -> Result<Cell, StopError>
    ensures { Gives at_root (λ c. c) result
        (plain.built_root forms.most_levels forms.most_parts mode (core_of plan.now.0) (type_view ty.now)
        (value_view value.now)) }
{
    if let Some(hidden) = hides_root(mode, ty, value) {
        return hidden_root(alloc, hidden);
    }
    let mut begun = 0;
    build_cell(alloc, plan, mode, MOST_LEVELS, &mut begun, ty, value)
}

// The root cell, or the stop as it is seen from the root.
fn build_root(
    alloc: Global,
    plan: &Plan,
    ty: &ClosedType,
    value: &Value,
    mode: Mode,
) -> Result<Cell, StopError>
    ensures { Gives at_root (λ c. c) result
        (plain.build mode (core_of plan.now.0) (type_view ty.now) (value_view value.now)) }
{
    let cell = built_root(alloc, plan, ty, value, mode)?;
    if cell.unfolded() > MOST_CELLS {
        return Err(stop_here(alloc, Cause::Sprawl));
    }
    Ok(cell)
}

// Parts in the other order.
fn reversed(alloc: Global, from: Items<Part>) -> Result<Items<Part>, BuildError>
    ensures ok { IfOk result (λ parts. parts ≡ reverse from) }
    ensures err { OnlyMemory result }
{
    let mut left = from;
    let mut parts = Items::new(alloc);
    while let Some(part) = left.pop() {
        parts.push(part)?;
    }
    Ok(parts)
}

// The place of a stop that is seen from the root.
fn placed(alloc: Global, stop: Stop) -> BuildError
    ensures { Placed stop result }
{
    let Stop {
        entered,
        parts,
        cause,
    } = stop;
    let parts = match reversed(alloc, parts) {
        Ok(parts) => parts,
        Err(_) => return BuildError::NoMemory,
    };
    let holder = match entered {
        None => Holder::Root,
        Some(Entered { of_type, number }) => Holder::Constructor(of_type, number),
    };
    BuildError::Unfit(Place {
        holder,
        field: FieldPath { parts },
        cause,
    })
}

/// Builds the one good tree of at most 262,144 cells that has the value as its reading at a closed type, or reports the
/// one place where the value does not fit, and then there is no such tree. It is not for mode Lax, in which a value has
/// many trees.
///
/// Causes are judged in the order of building: a cell before its reference, the values of a dictionary before its tree.
/// Each part of the value is looked at once, 2,304 levels at most by recursion.
pub fn build(
    alloc: Global,
    plan: &Plan,
    ty: &ClosedType,
    value: &Value,
    mode: Mode,
) -> Result<Cell, BuildError>
    requires { mode ≢ Lax }
    ensures { Answers mode (kept_cores (schema_view plan.now.0)) (type_view ty.now) (value_view value.now) result }
{
    built_is_one();
    stops_at_one();
    in_range(value);
    let _schema = plan.schema();
    match build_root(alloc, plan, ty, value, mode) {
        Ok(cell) => Ok(cell),
        Err(StopError::NoMemory) => Err(BuildError::NoMemory),
        Err(StopError::Stuck(stop)) => Err(placed(alloc, stop)),
    }
}

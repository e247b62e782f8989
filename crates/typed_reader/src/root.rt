//! The root.
ghost use Rattle.std.specs.Prelude.{◌≡◌, IfOk, reverse};
ghost use Rattle.accepted_schema.specs.Accepted.{kept_cores};
ghost use Rattle.closed_type.specs.View.{closed_type as type_view};
ghost use Rattle.plan_reading.specs.Stops.{Gives};
ghost use Rattle.spelling.specs.Goals as goals;
ghost use Rattle.spelling.specs.Places.{at_root};
ghost use Rattle.spelling.specs.PlainReader as plain;
ghost use Rattle.tlb_syntax.specs.View.{schema as schema_view};
ghost use Rattle.typed_value.specs.View.{value as value_view};
ghost use Rattle.typed_reader.specs.Promise.{Answers, OnlyMemory, Placed};
ghost use Rattle.typed_reader.specs.View.{core_of};

use crate::error::ReadError;
use crate::reader::read_cell;
use accepted_spelling::laws::{read_is_exact, read_or_stuck};
use cell_nodes::{Cell, Mode};
use closed_type::ClosedType;
use field_path::Part;
use field_plan::{FieldPath, Holder, Place, Plan};
use plan_reading::{Entered, Stop, StopError, stop_here, unseen};
use spelling::Cause;
use sqlite_items::Items;
use std::alloc::Global;
use typed_value::Value;

/// The most levels of a value.
const MOST_LEVELS: u32 = 2_304;

fn is_ref(ty: &ClosedType) -> bool
    ensures { result ≡ goals.is_ref (type_view ty.now) }
{
    matches!(ty, ClosedType::Ref(_))
}

// The reading, or the stop as it is seen from the root.
fn read_root(
    alloc: Global,
    plan: &Plan,
    ty: &ClosedType,
    cell: &Cell,
    mode: Mode,
) -> Result<Value, StopError>
    ensures { Gives at_root value_view result (plain.read mode (core_of plan.now.0) (type_view ty.now) cell.now) }
{
    if let Some(hidden) = unseen(cell, mode) {
        if is_ref(ty) {
            return Err(stop_here(alloc, Cause::Exotic));
        }
        return Ok(Value::Unknown(hidden));
    }
    let mut begun = 0;
    read_cell(alloc, plan, mode, MOST_LEVELS, &mut begun, ty, cell)
}

// Parts in the other order.
fn reversed(alloc: Global, from: Items<Part>) -> Result<Items<Part>, ReadError>
    ensures ok { IfOk result (λ parts. parts ≡ reverse from) }
    ensures err { OnlyMemory result }
{
    let mut left = from;
    let mut parts = Items::new(alloc);
    while let Some(part) = left.pop() {
        parts.push(part)?;
    }
    Ok(parts)
}

// The place of a stop that is seen from the root.
fn placed(alloc: Global, stop: Stop) -> ReadError
    ensures { Placed stop result }
{
    let Stop {
        entered,
        parts,
        cause,
    } = stop;
    let parts = match reversed(alloc, parts) {
        Ok(parts) => parts,
        Err(_) => return ReadError::NoMemory,
    };
    let holder = match entered {
        None => Holder::Root,
        Some(Entered { of_type, number }) => Holder::Constructor(of_type, number),
    };
    ReadError::Stuck(Place {
        holder,
        field: FieldPath { parts },
        cause,
    })
}

/// Reads the root cell of a tree at a closed type: the one value whose reading it is, or the one place where reading
/// stops.
///
/// In mode Partial a pruned branch of mask 1 in the place of the root, of a cell under `^` or of an edge of a dictionary
/// is Unknown. In mode Lax labels of every form are taken. Each bit and each reference is looked at once, 2,304 levels at
/// most by recursion; bits are copied, and cells are shared.
pub fn read(
    alloc: Global,
    plan: &Plan,
    ty: &ClosedType,
    cell: &Cell,
    mode: Mode,
) -> Result<Value, ReadError>
    ensures { Answers mode (kept_cores (schema_view plan.now.0)) (type_view ty.now) cell.now result }
{
    read_is_exact();
    read_or_stuck();
    // The laws hold of the schema of a plan, which is accepted.
    plan.schema();
    match read_root(alloc, plan, ty, cell, mode) {
        Ok(value) => Ok(value),
        Err(StopError::Stuck(stop)) => Err(placed(alloc, stop)),
        Err(StopError::NoMemory) => Err(ReadError::NoMemory),
    }
}

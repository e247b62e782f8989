//! The parts of a record, and where a building begins and stops.
ghost use Rattle.std.specs.Prelude.{◌≡◌, ◌+◌, ◌<◌, ◌∷◌, List, None, OnOk, length, map};
ghost use Rattle.building.specs.PlainBuilder as plain;
ghost use Rattle.core_form.specs.Core.{Word};
ghost use Rattle.flat_form.specs.Sound.{OpIsSound, OpsAreSound};
ghost use Rattle.flat_form.specs.Stands.{items_in, type_at};
ghost use Rattle.flat_form.specs.declared.lists.PlanOp.{PlanOp as Op};
ghost use Rattle.plan_reading.specs.Stops.{StopsAt};
ghost use Rattle.spelling.specs.Places.{Place, Spot, tag_of};
ghost use Rattle.typed_value.specs.View.{pair_of, vals_in};
ghost use Rattle.plan_building.specs.Begun.{Begins};
ghost use Rattle.plan_building.specs.FieldNames.{goes_on, names_of, op_names};

use bit_slice::Name;
use field_path::Part;
use flat_form::{Flat, PlanOp};
use plan_reading::{Stop, StopError, stop_here};
use spelling::Cause;
use std::alloc::Global;
use typed_value::Value;

/// The most parts of a value.
const MOST_PARTS: u32 = 1_048_576;

/// Takes a level and a part for a value, in this order.
pub fn begin(alloc: Global, levels: u32, begun: &mut u32) -> Result<(), StopError>
    ensures begins { Begins levels begun.old begun.new result }
    ensures left { OnOk result (0 < levels) }
    ensures counts { OnOk result (begun.new ≡ begun.old + 1) }
{
    if levels == 0 {
        return Err(stop_here(alloc, Cause::Nesting));
    }
    if *begun >= MOST_PARTS {
        return Err(stop_here(alloc, Cause::Bulk));
    }
    *begun += 1;
    Ok(())
}

// The fields after the first, if that has this name.
fn after_field<'a>(name: &Name, fields: &'a [(Name, Value)]) -> Option<&'a [(Name, Value)]>
    ensures { (names : List Word) → plain.same_words (names_of fields.entry.now) (name.now ∷ names)
        ≡ goes_on result names }
{
    match fields.split_first() {
        None => None,
        Some(((shown, _), rest)) => { if shown.same(name) { Some(rest) } else { None } }
    }
}

// The fields after that of an operation, if it has one and the first field has its name.
fn after_op<'a>(flat: &Flat, op: PlanOp, fields: &'a [(Name, Value)]) -> Option<&'a [(Name, Value)]>
    requires { OpIsSound flat.now (length flat.now.types) op }
    ensures { (ops : List Op) → plain.same_words (names_of fields.entry.now) (op_names flat.now (op ∷ ops))
        ≡ goes_on result (op_names flat.now ops) }
{
    match op {
        PlanOp::Field(name, _, _) => after_field(flat.name(name), fields),
        PlanOp::Check(_, _, _, _) | PlanOp::Solve(_, _, _, _) | PlanOp::When(_, _) => Some(fields),
    }
}

/// Whether a record has the fields of these operations, in their order.
pub fn has_fields(flat: &Flat, ops: &[PlanOp], fields: &[(Name, Value)]) -> bool
    requires { OpsAreSound flat.now (length flat.now.types) ops.now }
    ensures { result ≡ plain.has_fields (names_of fields.now) (vals_in (map pair_of fields.now))
        (items_in flat.now (type_at flat.now) None ops.now) }
{
    let mut left = fields;
    for op in ops {
        match after_op(flat, *op, left) {
            None => return false,
            Some(rest) => left = rest,
        }
    }
    left.is_empty()
}

/// A stop at the tag of the constructor where the call began.
pub fn in_tag(error: StopError) -> StopError
    ensures { (h : Spot) (p : Place) → StopsAt (tag_of h) error p → StopsAt h result p }
{
    let StopError::Stuck(stop) = error else {
        return StopError::NoMemory;
    };
    if stop.entered.is_some() {
        return StopError::Stuck(stop);
    }
    let Stop {
        entered,
        mut parts,
        cause,
    } = stop;
    match parts.push(Part::Tag) {
        Err(_) => StopError::NoMemory,
        Ok(()) => StopError::Stuck(Stop {
            entered,
            parts,
            cause,
        }),
    }
}

//! Tests of types and values, and values that are built at once.
ghost use Rattle.std.specs.Prelude.{◌≡◌, ℕ, IfNone, IfSome, None, OnOk, Err, map, nat_eq};
ghost use Rattle.building.specs.Growing.{Grown};
ghost use Rattle.building.specs.PlainBuilder as plain;
ghost use Rattle.cell_nodes.specs.declared.tree.Mode.{Mode as Reading};
ghost use Rattle.cell_nodes.specs.declared.tree.Tree.{Tree as TheTree};
ghost use Rattle.closed_type.specs.View.{closed_type as type_view};
ghost use Rattle.core_form.specs.Core.{CoreSchema, Items};
ghost use Rattle.core_form.specs.Scope.{Scope};
ghost use Rattle.plan_building.specs.View.{outputs_of};
ghost use Rattle.plan_reading.specs.Stops.{Gives, Stops};
ghost use Rattle.spelling.specs.Goals as goals;
ghost use Rattle.spelling.specs.Places.{Spot, stuck};
ghost use Rattle.spelling.specs.declared.Cause.TheVariants.{Shape};
ghost use Rattle.typed_value.specs.Values as forms;
ghost use Rattle.typed_value.specs.View.{names_in, pair_of, value as value_view, vals_in};
ghost use Rattle.typed_builder.specs.View.{cell_of_shape, is_whole, list_of, values_of};

use bit_slice::Name;
use cell_nodes::{Cell, Mode};
use closed_type::ClosedType;
use plan_building::Outputs;
use plan_reading::{StopError, stop_here, unseen};
use spelling::Cause;
use std::alloc::Global;
use typed_value::{Record, Value};

/// Whether the type is itself a reference.
pub fn is_ref(ty: &ClosedType) -> bool
    ensures { result ≡ goals.is_ref (type_view ty.now) }
{
    matches!(ty, ClosedType::Ref(_))
}

/// Whether the type is Any or Cell.
pub fn is_whole(ty: &ClosedType) -> bool
    ensures { result ≡ is_whole (type_view ty.now) }
{
    matches!(ty, ClosedType::Whole)
}

/// A stop where the call began, in place of what is built.
pub fn refuse(alloc: Global, cause: Cause) -> StopError
    ensures value { (h : Spot) → Stops {Y = plain.Made} h result (Err (stuck h cause)) }
    ensures cell { (h : Spot) → Stops {Y = TheTree} h result (Err (stuck h cause)) }
{
    stop_here(alloc, cause)
}

/// The value of a field whose condition doesn't hold: nothing is put.
pub fn left_out(alloc: Global, value: &Value) -> Result<Outputs, StopError>
    ensures gives { (mode : Reading) (schema : CoreSchema) (R : plain.Maker) (h : Spot) (q : ℕ) (b : Grown)
        → Gives h (λ outs. (outputs_of outs, b)) result
        (plain.make_shape mode schema R h goals.left_out q (value_view value.now) b) }
    ensures one { OnOk result (forms.parts (value_view value.now) ≡ 1) }
{
    match value {
        Value::Absent => Ok(Outputs::Empty),
        _ => Err(refuse(alloc, Cause::Shape)),
    }
}

/// The fields of a record in a record.
pub fn inner_fields(value: &Value) -> Option<&[(Name, Value)]>
    ensures is { IfSome result (λ fields. value_view value.now
        ≡ forms.record_of None (names_in (map pair_of fields.now)) (vals_in (map pair_of fields.now))) }
    ensures none { IfNone result ((mode : Reading) (schema : CoreSchema) (R : plain.Maker) (h : Spot) (is : Items)
        (scope : Scope) (q : ℕ) (b : Grown)
        → plain.make_shape mode schema R h (goals.fields_here is scope) q (value_view value.now) b
        ≡ Err (stuck h Shape)) }
{
    match value {
        Value::Record(Record { name: None, fields }) => Some(fields.as_slice()),
        _ => None,
    }
}

/// The cell of `^Any` and `^Cell`: one that would be read as hidden does not fit.
pub fn whole_cell(alloc: Global, mode: Mode, value: &Value) -> Result<Cell, StopError>
    ensures gives { (schema : CoreSchema) (R : plain.Maker) (h : Spot) (q : ℕ) → Gives h (λ c. c) result
        (cell_of_shape mode schema R h q (value_view value.now)) }
    ensures one { OnOk result (forms.parts (value_view value.now) ≡ 1) }
{
    let Value::Raw(cell) = value else {
        return Err(refuse(alloc, Cause::Shape));
    };
    if unseen(cell, mode).is_some() {
        return Err(stop_here(alloc, Cause::Shape));
    }
    Ok(cell.share()?)
}

/// Whether there are so many values.
pub fn has_count(items: &[Value], count: u32) -> bool
    ensures { result ≡ nat_eq (plain.count (list_of items.now)) count }
{
    items.len() == count as usize
}

/// The value of the first field, and the fields after it.
pub fn next_field<'a>(fields: &'a [(Name, Value)]) -> Option<(&'a Value, &'a [(Name, Value)])>
    ensures is { IfSome result (λ x. values_of fields.entry.now
        ≡ forms.a_val (value_view x.0.now) (values_of x.1.now)) }
    ensures none { IfNone result (values_of fields.entry.now ≡ forms.no_vals) }
{
    let ((_, value), due) = fields.split_first()?;
    Some((value, due))
}

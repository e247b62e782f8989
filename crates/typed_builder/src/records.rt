//! The operations of records and constructors, and what a constructor has beside its fields.
ghost use Rattle.std.specs.Prelude.{◌≡◌, ◌<◌, IfOk, false, IsSome, List, None, Option, Some, length, map, slice_get};
ghost use Rattle.building.specs.PlainBuilder as plain;
ghost use Rattle.closed_type.specs.View.{closed_args};
ghost use Rattle.closed_type.specs.declared.tree.ClosedType.{ClosedType as TheClosedType};
ghost use Rattle.core_form.specs.Core.{Declaration};
ghost use Rattle.core_form.specs.Fit.{fit as fit_of};
ghost use Rattle.core_form.specs.Scope.{values_in};
ghost use Rattle.flat_form.specs.Sound.{OpsAreSound};
ghost use Rattle.flat_form.specs.Stands.{items_in, record_at, type_at};
ghost use Rattle.plan_building.specs.View.{grown};
ghost use Rattle.plan_closing.specs.Counted.{scope_of};
ghost use Rattle.plan_reading.specs.Shaped.{IsRecord};
ghost use Rattle.plan_reading.specs.Slots.{slots_view};
ghost use Rattle.plan_reading.specs.Stops.{Gives};
ghost use Rattle.spelling.specs.Places.{Spot, tag_of};
ghost use Rattle.spelling.specs.Slices.{only_bits};
ghost use Rattle.typed_value.specs.View.{names_in, pair_of};
ghost use Rattle.typed_builder.specs.View.{core_of, values_of};

use bit_slice::Name;
use closed_type::ClosedArg;
use field_plan::Plan;
use flat_form::PlanOp;
use nat_solver::Env;
use plan_building::{Growing, has_fields, in_tag, put_bits};
use plan_reading::{Slots, StopError, fit, values};
use sqlite_items::Items;
use std::alloc::Global;
use tlb_memory::NoMemory;
use typed_value::Value;

/// Whether a record has the fields of these operations, in their order.
pub fn has_all(plan: &Plan, ops: &[PlanOp], fields: &[(Name, Value)]) -> bool
    requires { OpsAreSound plan.now.1 (length plan.now.1.types) ops.now }
    ensures { result ≡ plain.has_fields (names_in (map pair_of fields.now)) (values_of fields.now)
        (items_in plan.now.1 (type_at plan.now.1) None ops.now) }
{
    has_fields(plan.flat(), ops, fields)
}

/// The operations of a record in a record, by its first and their count.
pub fn inner_operations(plan: &Plan, first: u32, count: u32) -> &[PlanOp]
    requires { IsRecord plan.now.1 (length plan.now.1.types) first count }
    ensures sound { OpsAreSound plan.now.1 (length plan.now.1.types) result.now }
    ensures items { items_in plan.now.1 (type_at plan.now.1) None result.now ≡ record_at plan.now.1 first count }
{
    plan.flat().operations(first, count)
}

/// The operations of a constructor.
pub fn operations(plan: &Plan, c: u32) -> &[PlanOp]
    requires { c < length plan.now.2 }
    ensures sound { OpsAreSound plan.now.1 (length plan.now.1.types) result.now }
    ensures items { (d : Declaration) → slice_get (core_of plan.now.0) c ≡ Some d
        → items_in plan.now.1 (type_at plan.now.1) None result.now ≡ d.core.items }
{
    let entry = plan.entry(c);
    let flat = plan.flat();
    flat.operations(entry.first, entry.count)
}

/// What the inputs of a constructor bind, which fits the arguments.
pub fn fitted(alloc: Global, plan: &Plan, c: u32, args: &[ClosedArg]) -> Result<Slots, NoMemory>
    requires there { c < length plan.now.2 }
    requires fits { (d : Declaration) → slice_get (core_of plan.now.0) c ≡ Some d
        → IsSome (fit_of d.core (closed_args args.now)) }
    ensures { IfOk result (λ slots. (d : Declaration) → slice_get (core_of plan.now.0) c ≡ Some d
        → fit_of d.core (closed_args args.now) ≡ Some (slots_view slots)) }
{
    let entry = plan.entry(c);
    let _flat = plan.flat();
    match fit(alloc, plan.inputs(c), args, entry.slots)? {
        Some(slots) => Ok(slots),
        None => unreachable!(),
    }
}

/// Adds the tag of a constructor. A stop is seen from the constructor.
pub fn put_tag(alloc: Global, plan: &Plan, c: u32, b: &mut Growing) -> Result<(), StopError>
    requires { c < length plan.now.2 }
    ensures { (h : Spot) (d : Declaration) → slice_get (core_of plan.now.0) c ≡ Some d
        → Gives h (λ _. grown b.new) result (plain.put (tag_of h) (only_bits d.core.tag) false false (grown b.old)) }
{
    let _flat = plan.flat();
    let tag = plan.tag(c);
    match put_bits(alloc, tag, b) {
        Ok(()) => Ok(()),
        Err(error) => Err(in_tag(error)),
    }
}

/// The outputs of a constructor, if each of them has a value.
pub fn results(
    alloc: Global,
    plan: &Plan,
    c: u32,
    numbers: &Env,
) -> Result<Option<Items<u32>>, NoMemory>
    requires { c < length plan.now.2 }
    ensures { (types : List (Option TheClosedType)) → IfOk result (λ outs. (d : Declaration)
        → slice_get (core_of plan.now.0) c ≡ Some d → outs ≡ values_in d.core.outputs (scope_of numbers.now types)) }
{
    let flat = plan.flat();
    values(alloc, flat, plan.outputs(c), numbers)
}

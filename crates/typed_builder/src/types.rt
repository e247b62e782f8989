//! Types by the form of value that they take, and values that are put at once.
ghost use Rattle.std.specs.Prelude.{◌≡◌, ℕ, Err, IfNone, IfSome, List, Option};
ghost use Rattle.building.specs.Growing.{Grown};
ghost use Rattle.building.specs.PlainBuilder as plain;
ghost use Rattle.closed_type.specs.View.{closed_args, closed_type as type_view};
ghost use Rattle.core_form.specs.Closed as closed;
ghost use Rattle.core_form.specs.Core.{CoreSchema, Word};
ghost use Rattle.plan_building.specs.View.{grown, made};
ghost use Rattle.plan_reading.specs.Stops.{Gives};
ghost use Rattle.spelling.specs.Goals as goals;
ghost use Rattle.spelling.specs.Places.{Spot, stuck};
ghost use Rattle.spelling.specs.declared.Cause.TheVariants.{Shape};
ghost use Rattle.typed_value.specs.Values.{Plain, Plains};
ghost use Rattle.typed_value.specs.View.{slice_of};

use crate::forms::refuse;
use bit_slice::Name;
use cell_nodes::{Hidden, Mode};
use closed_type::{ClosedArg, ClosedType};
use plan_building::{Growing, Outputs, put_hidden, put_rest};
use plan_reading::StopError;
use spelling::Cause;
use std::alloc::Global;
use typed_value::RestPart;

/// The name and the arguments of a declared type.
pub fn declared(ty: &ClosedType) -> Option<(&Name, &[ClosedArg])>
    ensures is { IfSome result (λ x. type_view ty.now ≡ closed.named x.0.now (closed_args x.1.now)) }
    ensures none { IfNone result ((schema : CoreSchema) (R : plain.Maker) (h : Spot) (q : ℕ) (name : Option Word)
        (names : List Word) (vs : Plains) (b : Grown)
        → plain.record_at schema R h (goals.typed (type_view ty.now)) q name names vs b ≡ Err (stuck h Shape)) }
{
    match ty {
        ClosedType::Named(name, args) => Some((name, args.as_slice())),
        _ => None,
    }
}

/// The count and the type of the values of a repetition.
pub fn repeated(ty: &ClosedType) -> Option<(u32, &ClosedType)>
    ensures is { IfSome result (λ x. type_view ty.now ≡ closed.repeat x.0 (type_view x.1.now)) }
    ensures none { IfNone result ((R : plain.Maker) (h : Spot) (q : ℕ) (vs : Plains) (b : Grown)
        → plain.list_at R h (goals.typed (type_view ty.now)) q vs b ≡ Err (stuck h Shape)) }
{
    match ty {
        ClosedType::Repeat(count, inner) => Some((*count, inner.get())),
        _ => None,
    }
}

/// The type under a reference.
pub fn referred(ty: &ClosedType) -> Option<&ClosedType>
    ensures is { IfSome result (λ inner. type_view ty.now ≡ closed.ref (type_view inner.now)) }
    ensures none { IfNone result ((R : plain.Maker) (h : Spot) (q : ℕ) (v : Plain) (b : Grown)
        → plain.ref_at R h (goals.typed (type_view ty.now)) q v b ≡ Err (stuck h Shape)) }
{
    match ty {
        ClosedType::Ref(inner) => Some(inner.get()),
        _ => None,
    }
}

/// A hidden part at a closed type.
pub fn put_unknown(
    alloc: Global,
    mode: Mode,
    ty: &ClosedType,
    hidden: Hidden,
    b: &mut Growing,
) -> Result<Outputs, StopError>
    ensures { (h : Spot) → Gives h (made b.new) result
        (plain.unknown_at mode h (goals.typed (type_view ty.now)) hidden (grown b.old)) }
{
    match ty {
        ClosedType::Ref(_) => put_hidden(alloc, mode, hidden, b),
        _ => Err(refuse(alloc, Cause::Shape)),
    }
}

/// The rest of a cell at a closed type.
pub fn put_left(
    alloc: Global,
    ty: &ClosedType,
    rest: &RestPart,
    b: &mut Growing,
) -> Result<Outputs, StopError>
    ensures { (h : Spot) → Gives h (made b.new) result
        (plain.rest_at h (goals.typed (type_view ty.now)) (slice_of rest.now) (grown b.old)) }
{
    match ty {
        ClosedType::Whole => put_rest(alloc, rest, b),
        _ => Err(refuse(alloc, Cause::Shape)),
    }
}

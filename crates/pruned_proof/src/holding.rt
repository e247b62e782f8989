//! What values and types of some forms are, or hold.
ghost use Rattle.std.specs.Prelude.{◌≡◌, ◌≤◌, None, Option, map, option_map, true};
ghost use Rattle.closed_type.specs.View.{closed_args, closed_type as type_view};
ghost use Rattle.typed_value.specs.View.{names_in, pair_of, vals_in, value as value_view};
ghost use Rattle.pruned_proof.specs.Walks as plain;

use bit_slice::Name;
use closed_type::{ClosedArg, ClosedType};
use typed_value::Value;

/// A count, which is a number of 32 bits.
pub(crate) fn count_of(count: &u32) -> u32
    ensures same { result ≡ count.now }
    ensures small { result ≤ 4294967295 }
{
    *count
}

/// The most that a number of the type is, where it is its own output.
pub(crate) fn most_own(ty: &ClosedType) -> Option<u32>
    ensures { result ≡ plain.most_own (type_view ty.now) }
{
    match ty {
        ClosedType::Nat32 | ClosedType::Bits(_) => Some(4_294_967_295),
        ClosedType::Below(n) | ClosedType::UpTo(n) => Some(*n),
        _ => None,
    }
}

/// Whether it is a cell as it is.
pub(crate) fn is_raw(value: &Value) -> bool
    ensures { result ≡ plain.is_raw (value_view value.now) }
{
    match value {
        Value::Raw(_) => true,
        Value::Number(_) | Value::Bits(_) | Value::Record(_) | Value::Absent | Value::List(_) =>
            false,
        Value::Ref(_) | Value::Unknown(_) | Value::Map(_) | Value::Rest(_) => false,
    }
}

/// The value that a reference holds.
pub(crate) fn held<'a>(value: &'a Value) -> Option<&'a Value>
    ensures { option_map (λ v. value_view v.now) result ≡ plain.held_in (value_view value.entry.now) }
{
    match value {
        Value::Ref(inner) => Some(inner.get()),
        _ => None,
    }
}

/// The fields of a record.
pub(crate) fn fields_of<'a>(value: &'a Value) -> Option<&'a [(Name, Value)]>
    ensures { option_map (λ fs. (names_in (map pair_of fs.now), vals_in (map pair_of fs.now))) result
        ≡ plain.fields_of (value_view value.entry.now) }
{
    match value {
        Value::Record(record) => Some(record.fields.as_slice()),
        _ => None,
    }
}

/// What a type of references leads to.
pub(crate) fn referred<'a>(ty: &'a ClosedType) -> Option<&'a ClosedType>
    ensures { option_map (λ t. type_view t.now) result ≡ plain.referred (type_view ty.entry.now) }
{
    match ty {
        ClosedType::Ref(inner) => Some(inner.get()),
        _ => None,
    }
}

/// How many of which type a repetition has.
pub(crate) fn repeated<'a>(ty: &'a ClosedType) -> Option<(&'a u32, &'a ClosedType)>
    ensures { option_map (λ p. (p.0.now, type_view p.1.now)) result ≡ plain.repeated (type_view ty.entry.now) }
{
    match ty {
        ClosedType::Repeat(count, inner) => Some((count, inner.get())),
        _ => None,
    }
}

/// The width of the keys and the type of the values of a dictionary whose first edge stands in place.
pub(crate) fn mapped_here<'a>(ty: &'a ClosedType) -> Option<(&'a u32, &'a ClosedType)>
    ensures { option_map (λ p. (p.0.now, type_view p.1.now)) result ≡ plain.mapped_here (type_view ty.entry.now) }
{
    match ty {
        ClosedType::Dict(width, inner) => Some((width, inner.get())),
        _ => None,
    }
}

/// The same of one whose first edge has a cell of its own.
pub(crate) fn mapped_under<'a>(ty: &'a ClosedType) -> Option<(&'a u32, &'a ClosedType)>
    ensures { option_map (λ p. (p.0.now, type_view p.1.now)) result ≡ plain.mapped_under (type_view ty.entry.now) }
{
    match ty {
        ClosedType::DictE(width, inner) => Some((width, inner.get())),
        _ => None,
    }
}

/// The name of a declared type and what it is given.
pub(crate) fn named_as<'a>(ty: &'a ClosedType) -> Option<(&'a Name, &'a [ClosedArg])>
    ensures { option_map (λ p. (p.0.now, closed_args p.1.now)) result ≡ plain.named_as (type_view ty.entry.now) }
{
    match ty {
        ClosedType::Named(name, args) => Some((name, args.as_slice())),
        _ => None,
    }
}

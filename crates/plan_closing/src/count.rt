//! The nodes of a closed type, before it is made.
ghost use Rattle.std.specs.Prelude.{◌≡◌, ◌<◌, length};
ghost use Rattle.core_form.specs.Closing.{closing, closing_args};
ghost use Rattle.nat_solver.specs.Number.{value as value_of};
ghost use Rattle.closed_type.specs.Nodes.{more};
ghost use Rattle.flat_form.specs.Stands.{args_in, expr_at, type_at};
ghost use Rattle.flat_form.specs.Sound.{ArgIsSound, ArgsAreSound, IsFlat, IsPlainNumber};
ghost use Rattle.plan_closing.specs.Counted.{counted, counted_arg, counted_args, counted_number, scope_of};

use closed_type::{ClosedType, MOST_NODES};
use flat_form::{Flat, PlanArg, TypeNode};
use nat_solver::{Env, eval};

// A count and one more, up to one past the most.
fn one_more(count: u32) -> u32
    ensures { result ≡ more count 1 }
{
    count.saturating_add(1).min(MOST_NODES + 1)
}

// A count that is at most one past the most.
fn bounded(count: u32) -> u32
    ensures { result ≡ more count 0 }
{
    count.min(MOST_NODES + 1)
}

/// The number of an expression, if it and every part of it is at most 2^32 − 1.
pub fn value(flat: &Flat, e: u32, env: &Env) -> Option<u32>
    requires { IsPlainNumber flat.now e }
    ensures { result ≡ value_of (expr_at flat.now e) env.now }
{
    eval(flat.expression(e), env).ok()
}

// A count with one node for a number.
fn count_number(flat: &Flat, e: u32, env: &Env, count: u32) -> Option<u32>
    requires { IsPlainNumber flat.now e }
    ensures { result ≡ counted_number count (value_of (expr_at flat.now e) env.now) }
{
    value(flat, e, env)?;
    Some(one_more(count))
}

/// A count with the nodes of a type, once it is closed; `None` where a number or a variable has no value.
#[cycle(count)]
pub fn count_type(
    flat: &Flat,
    ty: u32,
    env: &Env,
    types: &[Option<ClosedType>],
    count: u32,
) -> Option<u32>
    requires flat { IsFlat flat.now }
    requires there { ty < length flat.now.types }
    ensures { result ≡ counted count (closing (type_at flat.now ty) (scope_of env.now types.now)) }
{
    match flat.node(ty) {
        TypeNode::Nat32 | TypeNode::Whole => Some(one_more(count)),
        TypeNode::Bits(e)
        | TypeNode::Below(e)
        | TypeNode::UpTo(e)
        | TypeNode::Uint(e)
        | TypeNode::Int(e)
        | TypeNode::BitStr(e) => count_number(flat, e, env, count),
        TypeNode::Variable(v) => match types.get(v as usize) {
            Some(Some(t)) => Some(t.counted(count)),
            Some(None) | None => None,
        },
        TypeNode::Ref(inner) => count_type(flat, inner, env, types, one_more(count)),
        TypeNode::Repeat(e, inner) | TypeNode::Dict(e, inner) | TypeNode::DictE(e, inner) => {
            let count = count_number(flat, e, env, count)?;
            count_type(flat, inner, env, types, count)
        }
        TypeNode::Named(_, first, length) => {
            let args = flat.arguments(first, length);
            count_args(flat, ty, args, env, types, one_more(count))
        }
        TypeNode::Group(_, _) => None,
    }
}

#[cycle(count)]
fn count_args(
    flat: &Flat,
    top: u32,
    args: &[PlanArg],
    env: &Env,
    types: &[Option<ClosedType>],
    so_far: u32,
) -> Option<u32>
    requires flat { IsFlat flat.now }
    requires there { top < length flat.now.types }
    requires sound { ArgsAreSound flat.now top args.now }
    ensures { result ≡ counted_args so_far
        (closing_args (args_in flat.now (type_at flat.now) args.now) (scope_of env.now types.now)) }
{
    let mut count = so_far;
    for arg in args {
        count = count_arg(flat, top, *arg, env, types, count)?;
    }
    Some(bounded(count))
}

#[cycle(count)]
fn count_arg(
    flat: &Flat,
    top: u32,
    arg: PlanArg,
    env: &Env,
    types: &[Option<ClosedType>],
    count: u32,
) -> Option<u32>
    requires flat { IsFlat flat.now }
    requires there { top < length flat.now.types }
    requires sound { ArgIsSound flat.now top arg }
    ensures { result ≡ counted_arg flat.now (scope_of env.now types.now) count arg }
{
    match arg {
        PlanArg::Nat(e) => count_number(flat, e, env, count),
        PlanArg::Ty(inner) => count_type(flat, inner, env, types, count),
        PlanArg::Out(_) => Some(count),
    }
}

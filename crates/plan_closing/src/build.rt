//! Making a closed type.
ghost use Rattle.std.specs.Prelude.{◌≡◌, ◌<◌, ◌++◌, length, map, option_map, option_to_list, OnOk};
ghost use Rattle.nat_solver.specs.Number.{value as value_of};
ghost use Rattle.core_form.specs.Closing.{closing, closing_args};
ghost use Rattle.closed_type.specs.View.{closed_arg as arg_view, closed_args as args_view, closed_type as type_view};
ghost use Rattle.flat_form.specs.Stands.{args_in, expr_at, type_at};
ghost use Rattle.flat_form.specs.Sound.{ArgIsSound, ArgsAreSound, IsFlat, IsPlainNumber};
ghost use Rattle.plan_closing.specs.Counted.{closed_alone, scope_of};
ghost use Rattle.plan_closing.specs.Gives.{Builds};

use crate::count::value;
use crate::error::CloseError;
use closed_type::{ClosedArg, ClosedType};
use flat_form::{Flat, PlanArg, TypeNode};
use nat_solver::Env;
use sqlite_items::{Boxed, Items};
use std::alloc::Global;
use tlb_memory::NoMemory;

// The number of an expression, or Overflow.
fn number(flat: &Flat, e: u32, env: &Env) -> Result<u32, CloseError>
    requires { IsPlainNumber flat.now e }
    ensures { Builds (λ n. n) result (value_of (expr_at flat.now e) env.now) }
{
    match value(flat, e, env) {
        Some(n) => Ok(n),
        None => Err(CloseError::Overflow),
    }
}

// Keeps an argument, if there is one.
fn keep(args: &mut Items<ClosedArg>, arg: Option<ClosedArg>) -> Result<(), NoMemory>
    ensures { OnOk result (map arg_view args.new
        ≡ map arg_view args.old ++ option_to_list (option_map arg_view arg)) }
{
    if let Some(arg) = arg {
        args.push(arg)?;
    }
    Ok(())
}

/// The closed type of a type, however large.
#[cycle(build)]
pub fn build_type(
    alloc: Global,
    flat: &Flat,
    ty: u32,
    env: &Env,
    types: &[Option<ClosedType>],
) -> Result<ClosedType, CloseError>
    requires flat { IsFlat flat.now }
    requires there { ty < length flat.now.types }
    ensures { Builds type_view result (closing (type_at flat.now ty) (scope_of env.now types.now)) }
{
    match flat.node(ty) {
        TypeNode::Nat32 => Ok(ClosedType::Nat32),
        TypeNode::Bits(e) => Ok(ClosedType::Bits(number(flat, e, env)?)),
        TypeNode::Below(e) => Ok(ClosedType::Below(number(flat, e, env)?)),
        TypeNode::UpTo(e) => Ok(ClosedType::UpTo(number(flat, e, env)?)),
        TypeNode::Uint(e) => Ok(ClosedType::Uint(number(flat, e, env)?)),
        TypeNode::Int(e) => Ok(ClosedType::Int(number(flat, e, env)?)),
        TypeNode::BitStr(e) => Ok(ClosedType::BitStr(number(flat, e, env)?)),
        TypeNode::Whole => Ok(ClosedType::Whole),
        TypeNode::Variable(v) => match types.get(v as usize) {
            Some(Some(t)) => Ok(t.copy(alloc)?),
            Some(None) | None => Err(CloseError::Overflow),
        },
        TypeNode::Ref(inner) => {
            let inner = build_type(alloc, flat, inner, env, types)?;
            Ok(ClosedType::Ref(Boxed::new(alloc, inner)?))
        }
        TypeNode::Repeat(e, inner) => {
            let n = number(flat, e, env)?;
            let inner = build_type(alloc, flat, inner, env, types)?;
            Ok(ClosedType::Repeat(n, Boxed::new(alloc, inner)?))
        }
        TypeNode::Dict(e, inner) => {
            let n = number(flat, e, env)?;
            let inner = build_type(alloc, flat, inner, env, types)?;
            Ok(ClosedType::Dict(n, Boxed::new(alloc, inner)?))
        }
        TypeNode::DictE(e, inner) => {
            let n = number(flat, e, env)?;
            let inner = build_type(alloc, flat, inner, env, types)?;
            Ok(ClosedType::DictE(n, Boxed::new(alloc, inner)?))
        }
        TypeNode::Named(x, first, count) => {
            let name = flat.name(x).copy(alloc)?;
            let args = build_args(alloc, flat, ty, flat.arguments(first, count), env, types)?;
            Ok(ClosedType::Named(name, args))
        }
        TypeNode::Group(_, _) => Err(CloseError::Overflow),
    }
}

#[cycle(build)]
fn build_args(
    alloc: Global,
    flat: &Flat,
    top: u32,
    args: &[PlanArg],
    env: &Env,
    types: &[Option<ClosedType>],
) -> Result<Items<ClosedArg>, CloseError>
    requires flat { IsFlat flat.now }
    requires there { top < length flat.now.types }
    requires sound { ArgsAreSound flat.now top args.now }
    ensures { Builds args_view result
        (closing_args (args_in flat.now (type_at flat.now) args.now) (scope_of env.now types.now)) }
{
    let mut built = Items::new(alloc);
    for arg in args {
        let made = build_arg(alloc, flat, top, *arg, env, types)?;
        keep(&mut built, made)?;
    }
    Ok(built)
}

#[cycle(build)]
fn build_arg(
    alloc: Global,
    flat: &Flat,
    top: u32,
    arg: PlanArg,
    env: &Env,
    types: &[Option<ClosedType>],
) -> Result<Option<ClosedArg>, CloseError>
    requires flat { IsFlat flat.now }
    requires there { top < length flat.now.types }
    requires sound { ArgIsSound flat.now top arg }
    ensures { Builds (option_map arg_view) result (closed_alone flat.now (scope_of env.now types.now) arg) }
{
    match arg {
        PlanArg::Nat(e) => Ok(Some(ClosedArg::Nat(number(flat, e, env)?))),
        PlanArg::Ty(inner) => {
            let inner = build_type(alloc, flat, inner, env, types)?;
            Ok(Some(ClosedArg::Ty(inner)))
        }
        PlanArg::Out(_) => Ok(None),
    }
}

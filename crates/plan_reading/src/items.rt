//! Checks, equations and outputs.
ghost use Rattle.std.specs.Prelude.{◌≡◌, [], ℕ, List, Option, All, IfOk, map};
ghost use Rattle.closed_type.specs.declared.tree.ClosedType.{ClosedType as TheClosedType};
ghost use Rattle.core_form.specs.Core as core;
ghost use Rattle.core_form.specs.Scope.{values_in};
ghost use Rattle.flat_form.specs.Sound.{IsEquation, IsPlainNumber};
ghost use Rattle.flat_form.specs.Stands.{expr_at};
ghost use Rattle.hashmap_tree.specs.Entries.{Slice};
ghost use Rattle.nat_solver.specs.Number as numbers;
ghost use Rattle.plan_closing.specs.Counted.{scope_of};
ghost use Rattle.spelling.specs.Places.{Spot, item_of};
ghost use Rattle.spelling.specs.PlainReader as plain;
ghost use Rattle.plan_reading.specs.Gives.{Leaf, unchanged};

use flat_form::Flat;
use nat_solver::{Env, NatError, Op, eval, holds};
use spelling::Cause;
use sqlite_items::Items;
use std::alloc::Global;
use tlb_memory::NoMemory;

/// The number of an expression, if it and every part of it is at most 2^32 − 1.
pub fn value(flat: &Flat, e: u32, env: &Env) -> Option<u32>
    requires { IsPlainNumber flat.now e }
    ensures { result ≡ numbers.value (expr_at flat.now e) env.now }
{
    eval(flat.expression(e), env).ok()
}

/// Checks that two expressions compare so.
#[tactic(auto, using(crate::proofs::Checking::check_true, crate::proofs::Checking::check_false, crate::proofs::Checking::check_lacks))]
pub fn check(flat: &Flat, left: u32, op: Op, right: u32, env: &Env) -> Result<(), Cause>
    requires left { IsPlainNumber flat.now left }
    requires right { IsPlainNumber flat.now right }
    ensures { (R : plain.Reader) (h : Spot) (i q : ℕ) (s : Slice) (types : List (Option TheClosedType))
        → Leaf (item_of h i) (λ done. unchanged (scope_of env.now types) q s) result
        (plain.step R h (core.check (expr_at flat.now left) op (expr_at flat.now right) i) (scope_of env.now types) q s) }
{
    match holds(flat.expression(left), op, flat.expression(right), env) {
        Ok(true) => Ok(()),
        Ok(false) => Err(Cause::Constraint),
        Err(_) => Err(Cause::Overflow),
    }
}

/// The number that solves an equation for its one unknown, which has this slot.
pub fn sought(flat: &Flat, slot: u32, left: u32, right: u32, env: &Env) -> Result<u32, Cause>
    requires { IsEquation flat.now slot left right }
    ensures { result ≡ plain.sought_number (expr_at flat.now left) (expr_at flat.now right) env.now }
{
    let _slot = slot;
    match nat_solver::solve(flat.expression(left), flat.expression(right), env) {
        Ok(number) => Ok(number),
        Err(NatError::NoSolution) => Err(Cause::NoSolution),
        Err(NatError::Overflow) | Err(NatError::Unknown(_)) => Err(Cause::Overflow),
    }
}

/// The numbers of expressions, in order, or `None` where one has no value.
pub fn values(
    alloc: Global,
    flat: &Flat,
    outputs: &[u32],
    env: &Env,
) -> Result<Option<Items<u32>>, NoMemory>
    requires { All (IsPlainNumber flat.now) outputs.now }
    ensures { (types : List (Option TheClosedType))
        → IfOk result (λ ns. ns ≡ values_in (map (expr_at flat.now) outputs.now) (scope_of env.now types)) }
{
    let mut numbers = Items::new(alloc);
    for output in outputs {
        let Some(number) = value(flat, *output, env) else {
            return Ok(None);
        };
        numbers.push(number)?;
    }
    Ok(Some(numbers))
}

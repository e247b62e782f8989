//! Conditions, and the slots that fields set.
ghost use Rattle.std.specs.Prelude.{◌≡◌, ◌≤◌, ◌<◌, ◌++◌, ℕ, List, Option, Some, length, slice_set};
ghost use Rattle.closed_type.specs.declared.tree.ClosedType.{ClosedType as TheClosedType};
ghost use Rattle.core_form.specs.Core.{Args, outs, sets, slot_list};
ghost use Rattle.core_form.specs.Scope as scopes;
ghost use Rattle.flat_form.specs.Sound.{IsFlat};
ghost use Rattle.flat_form.specs.Stands.{arg_onto, args_in, bit_of, slot_of, type_at};
ghost use Rattle.flat_form.specs.declared.lists.Flat.{Flat as Lists};
ghost use Rattle.plan_closing.specs.Counted.{scope_of};
ghost use Rattle.spelling.specs.Goals as goals;

use flat_form::{Flat, NO_BIT, NO_SLOT, PlanArg, TypeNode};
use nat_solver::Env;

/// Whether a number meets a condition: bit `bit` of it is 1, or it is not 0 where there is no bit.
pub fn tests(number: u32, bit: u32) -> bool
    requires { bit ≤ 32 }
    ensures { result ≡ goals.passes (bit_of bit) number }
{
    if bit == NO_BIT {
        return number > 0;
    }
    (number >> bit) % 2 == 1
}

/// Sets a slot, if there is one of that number.
pub fn set(env: &mut Env, slot: u32, number: u32)
    ensures { env.new ≡ slice_set env.old slot (Some number) }
{
    if (slot as usize) < env.len() {
        env.set(slot, number);
    }
}

// Sets the slot of an argument that is an output, and gives the outputs that are left.
#[tactic(auto, using(crate::proofs::Binding::bind_nothing))]
fn bind_arg<'a>(arg: PlanArg, outputs: &'a [u32], env: &mut Env) -> &'a [u32]
    ensures { (f : Lists) (rest : Args) (types : List (Option TheClosedType))
        → scopes.bind (outs (arg_onto f (type_at f) arg rest)) outputs.entry.now (scope_of env.old types)
        ≡ scopes.bind (outs rest) result.now (scope_of env.new types) }
{
    match arg {
        PlanArg::Nat(_) | PlanArg::Ty(_) => outputs,
        PlanArg::Out(slot) => match outputs.split_first() {
            None => outputs,
            Some((number, rest)) => {
                set(env, slot, *number);
                rest
            }
        },
    }
}

// Sets the slots of the arguments that are outputs.
#[tactic(auto, using(crate::proofs::Binding::bind_nothing))]
fn bind_args(flat: &Flat, args: &[PlanArg], outputs: &[u32], env: &mut Env)
    ensures { (types : List (Option TheClosedType))
        → scopes.bind (outs (args_in flat.now (type_at flat.now) args.now)) outputs.now (scope_of env.old types)
        ≡ scope_of env.new types }
{
    let _ = &flat.types;
    let mut left = outputs;
    for arg in args {
        left = bind_arg(*arg, left, env);
    }
}

/// Sets the slot of a field and those of the outputs of its type, in this order, to the field's outputs.
pub fn bind(flat: &Flat, ty: u32, slot: u32, outputs: &[u32], env: &mut Env)
    requires flat { IsFlat flat.now }
    requires there { ty < length flat.now.types }
    ensures { (types : List (Option TheClosedType))
        → scopes.bind (sets (slot_of slot) (type_at flat.now ty)) outputs.now (scope_of env.old types)
        ≡ scope_of env.new types }
{
    let rest = bind_slot(slot, outputs, env);
    if let TypeNode::Named(_, first, count) = flat.node(ty) {
        bind_args(flat, flat.arguments(first, count), rest, env);
    }
}

// Sets the slot of a field, if it has one, and gives the outputs that are left.
#[tactic(auto, using(crate::proofs::Binding::bind_nothing))]
fn bind_slot<'a>(slot: u32, outputs: &'a [u32], env: &mut Env) -> &'a [u32]
    ensures { (more : List ℕ) (types : List (Option TheClosedType))
        → scopes.bind (slot_list (slot_of slot) ++ more) outputs.entry.now (scope_of env.old types)
        ≡ scopes.bind more result.now (scope_of env.new types) }
{
    if slot == NO_SLOT {
        return outputs;
    }
    match outputs.split_first() {
        None => outputs,
        Some((number, rest)) => {
            set(env, slot, *number);
            rest
        }
    }
}

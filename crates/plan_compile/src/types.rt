//! Types.
ghost use Rattle.std.specs.Prelude.{◌≡◌, ◌<◌, IfOk, OnOk, Some, length, map, option_map};
ghost use Rattle.nat_solver.specs.Number.{Expr as NumberExpr};
ghost use Rattle.tlb_syntax.specs.View.{constructor as constructor_view, expr as expr_view, exprs as exprs_view};
ghost use Rattle.kind_terms.specs.Forms.{out_name as out_name_of};
ghost use Rattle.schema_core.specs.Numbers.{named_number as named_number_of};
ghost use Rattle.schema_core.specs.CoreOf.{alone, args_of, no_meaning, of_family, type_of};
ghost use Rattle.flat_form.specs.Stands.{type_at};
ghost use Rattle.flat_form.specs.Sound.{ArgsAreSound, IsFlat};
ghost use Rattle.flat_form.specs.Growth.{Adds};
ghost use Rattle.flat_form.specs.Parts.{append_args, args_so_far, sized};
ghost use Rattle.plan_compile.specs.Applied.{applied_to, arg_of, hiding as hiding_name, second_type};
ghost use Rattle.plan_compile.specs.Views.{names_by, variable_by};

use crate::names::{InScope, Variable, meaning, number_called};
use crate::numbers::{first_number, number, one_more};
use crate::words::{TypeName, type_name};
use bit_slice::Name;
use flat_form::{Flat, NO_SLOT, PlanArg, Sized, TypeNode};
use kind_terms::{Family, TermKind, Types, out_name};
use nat_solver::NatExpr;
use sqlite_items::Items;
use std::alloc::Global;
use tlb_memory::NoMemory;
use tlb_syntax::Expr;

// What has no meaning as a type.
fn add_nothing(flat: &mut Flat) -> Result<u32, NoMemory>
    requires { IsFlat flat.old }
    ensures adds { OnOk result (Adds flat.old flat.new) }
    ensures there { IfOk result (λ t. t < length flat.new.types) }
    ensures stands { IfOk result (λ t. type_at flat.new t ≡ no_meaning) }
{
    flat.add_type(TypeNode::Variable(NO_SLOT))
}

fn form_of(family: Family) -> Sized
    ensures { (e : NumberExpr) → sized result e ≡ of_family family e }
{
    match family {
        Family::Uint => Sized::Uint,
        Family::Int => Sized::Int,
        Family::Bits => Sized::BitStr,
    }
}

// The slot of the number x, for an argument `~x`.
fn output_slot(names: &[InScope<'_>], e: &Expr) -> Option<u32>
    ensures { result ≡ named_number_of (names_by names.now) (out_name_of (expr_view e.now)) }
{
    match out_name(e) {
        Some(name) => number_called(names, name),
        None => None,
    }
}

// What a name that stands alone stands for, if it is in scope: it hides a type of its name.
fn hiding(names: &[InScope<'_>], name: &Name, args: &Items<Expr>) -> Option<Variable>
    ensures { option_map variable_by result ≡ hiding_name (names_by names.now) name.now (exprs_view args.now) }
{
    if args.is_empty() {
        meaning(names, name)
    } else {
        None
    }
}

/// The number of the type that is added for an expression, where no record has a meaning.
#[cycle(compile)]
pub fn compile_type(
    alloc: Global,
    flat: &mut Flat,
    types: &Types<'_>,
    names: &[InScope<'_>],
    e: &Expr,
) -> Result<u32, NoMemory>
    requires { IsFlat flat.old }
    ensures adds { OnOk result (Adds flat.old flat.new) }
    ensures there { IfOk result (λ t. t < length flat.new.types) }
    ensures stands { IfOk result (λ t. type_at flat.new t
        ≡ type_of (map constructor_view types.now) (names_by names.now) (expr_view e.now)) }
{
    match e {
        Expr::Nat32 => flat.add_type(TypeNode::Nat32),
        Expr::Bits(args) => {
            let width = first_number(alloc, names, args.as_slice())?;
            flat.add_sized(Sized::Bits, width)
        }
        Expr::Below(args) => {
            let bound = first_number(alloc, names, args.as_slice())?;
            flat.add_sized(Sized::Below, bound)
        }
        Expr::UpTo(args) => {
            let bound = first_number(alloc, names, args.as_slice())?;
            flat.add_sized(Sized::UpTo, bound)
        }
        Expr::Star(count, inner) => {
            let count = number(alloc, names, count.get())?;
            let inner = compile_type(alloc, flat, types, names, inner.get())?;
            flat.add_repeat(count, inner)
        }
        Expr::Ref(inner) => {
            let inner = compile_type(alloc, flat, types, names, inner.get())?;
            flat.add_ref(inner)
        }
        Expr::Named(name, args) => match hiding(names, name, args) {
            Some(variable) => add_variable(flat, variable),
            None => compile_applied(alloc, flat, types, names, name, args.as_slice()),
        },
        Expr::Lit(_) => add_nothing(flat),
        Expr::Out(_) => add_nothing(flat),
        Expr::Group(_) => add_nothing(flat),
        Expr::Sum(_, _, _) => add_nothing(flat),
    }
}

// What a name in scope is as a type.
fn add_variable(flat: &mut Flat, variable: Variable) -> Result<u32, NoMemory>
    requires { IsFlat flat.old }
    ensures adds { OnOk result (Adds flat.old flat.new) }
    ensures there { IfOk result (λ t. t < length flat.new.types) }
    ensures stands { IfOk result (λ t. type_at flat.new t ≡ alone (Some (variable_by variable)) no_meaning) }
{
    match variable {
        Variable::Type(slot) => flat.add_type(TypeNode::Variable(slot)),
        Variable::Number(_) => add_nothing(flat),
        Variable::Other => add_nothing(flat),
    }
}

// The name of a type with its arguments.
#[cycle(compile)]
fn compile_applied(
    alloc: Global,
    flat: &mut Flat,
    types: &Types<'_>,
    names: &[InScope<'_>],
    name: &Name,
    args: &[Expr],
) -> Result<u32, NoMemory>
    requires { IsFlat flat.old }
    ensures adds { OnOk result (Adds flat.old flat.new) }
    ensures there { IfOk result (λ t. t < length flat.new.types) }
    ensures stands { IfOk result (λ t. type_at flat.new t
        ≡ applied_to (map constructor_view types.now) (names_by names.now) name.now (exprs_view args.now)) }
{
    match type_name(types, name)? {
        TypeName::NoType => add_nothing(flat),
        TypeName::TypeWord => add_nothing(flat),
        TypeName::Anything => flat.add_type(TypeNode::Whole),
        TypeName::Family(family) => {
            let width = first_number(alloc, names, args)?;
            flat.add_sized(form_of(family), width)
        }
        TypeName::FamilyOf(family, width) => flat.add_sized(form_of(family), NatExpr::Lit(width)),
        TypeName::Hashmap => {
            let width = first_number(alloc, names, args)?;
            let inner = compile_second(alloc, flat, types, names, args)?;
            flat.add_dict(width, inner)
        }
        TypeName::HashmapE => {
            let width = first_number(alloc, names, args)?;
            let inner = compile_second(alloc, flat, types, names, args)?;
            flat.add_dict_e(width, inner)
        }
        TypeName::Declared(kinds) => {
            let name = name.copy(alloc)?;
            let args = compile_args(alloc, flat, types, names, kinds, args)?;
            flat.add_named(name, args)
        }
    }
}

// The second argument, as a type.
#[cycle(compile)]
fn compile_second(
    alloc: Global,
    flat: &mut Flat,
    types: &Types<'_>,
    names: &[InScope<'_>],
    args: &[Expr],
) -> Result<u32, NoMemory>
    requires { IsFlat flat.old }
    ensures adds { OnOk result (Adds flat.old flat.new) }
    ensures there { IfOk result (λ t. t < length flat.new.types) }
    ensures stands { IfOk result (λ t. type_at flat.new t
        ≡ second_type (map constructor_view types.now) (names_by names.now) (exprs_view args.now)) }
{
    match args {
        [_, second, ..] => compile_type(alloc, flat, types, names, second),
        _ => add_nothing(flat),
    }
}

// The arguments of a declared type whose parameters are of these kinds. They are in no list yet.
#[cycle(compile)]
fn compile_args(
    alloc: Global,
    flat: &mut Flat,
    types: &Types<'_>,
    names: &[InScope<'_>],
    kinds: &Items<TermKind>,
    args: &[Expr],
) -> Result<Items<PlanArg>, NoMemory>
    requires { IsFlat flat.old }
    ensures adds { OnOk result (Adds flat.old flat.new) }
    ensures sound { IfOk result (λ made. ArgsAreSound flat.new (length flat.new.types) made) }
    ensures stands { IfOk result (λ made. args_so_far flat.new made
        ≡ args_of (map constructor_view types.now) (names_by names.now) kinds.now (exprs_view args.now)) }
{
    let mut made = Items::new(alloc);
    let mut place = 0u32;
    for arg in args {
        match kinds.get(place as usize) {
            None => return Ok(made),
            Some(kind) => compile_arg(alloc, flat, types, names, *kind, arg, &mut made)?,
        }
        place = one_more(place)?;
    }
    Ok(made)
}

// Puts an argument after those before.
#[cycle(compile)]
fn compile_arg(
    alloc: Global,
    flat: &mut Flat,
    types: &Types<'_>,
    names: &[InScope<'_>],
    kind: TermKind,
    arg: &Expr,
    made: &mut Items<PlanArg>,
) -> Result<(), NoMemory>
    requires flat { IsFlat flat.old }
    requires sound { ArgsAreSound flat.old (length flat.old.types) made.old }
    ensures adds { OnOk result (Adds flat.old flat.new) }
    ensures sound { OnOk result (ArgsAreSound flat.new (length flat.new.types) made.new) }
    ensures stands { OnOk result (args_so_far flat.new made.new ≡ append_args (args_so_far flat.old made.old)
        (arg_of (map constructor_view types.now) (names_by names.now) kind (expr_view arg.now))) }
{
    match kind {
        TermKind::NumberIn(_) => {
            let number = number(alloc, names, arg)?;
            flat.push_number(made, number)
        }
        TermKind::TypeIn => {
            let ty = compile_type(alloc, flat, types, names, arg)?;
            flat.push_type(made, ty)
        }
        TermKind::NumberOut => match output_slot(names, arg) {
            Some(slot) => flat.push_output(made, slot),
            None => Ok(()),
        },
        TermKind::NoKind => Ok(()),
    }
}

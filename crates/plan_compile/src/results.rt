//! Inputs and outputs of results.
ghost use Rattle.std.specs.Prelude.{◌≡◌, ◌++◌, IfOk, OnOk, map, option_map, option_to_list};
ghost use Rattle.tlb_syntax.specs.View.{expr as expr_view, exprs as exprs_view};
ghost use Rattle.schema_core.specs.CoreOf.{input_of as input_form, inputs_of, literal_of as literal_in, output_of};
ghost use Rattle.schema_core.specs.CoreOf.{outputs_of, sum_input as sum_form, variable_input as variable_form};
ghost use Rattle.flat_form.specs.Stands.{input_of};
ghost use Rattle.flat_form.specs.Sound.{IsFlat};
ghost use Rattle.flat_form.specs.Growth.{Adds};
ghost use Rattle.plan_compile.specs.Results.{AreOutputs, IsOutput};
ghost use Rattle.plan_compile.specs.Views.{names_by, variable_by};

use crate::names::{InScope, Variable, meaning};
use crate::numbers::{named_number, number};
use flat_form::{Flat, PlanInput};
use nat_solver::Pattern;
use sqlite_items::Items;
use std::alloc::Global;
use tlb_memory::NoMemory;
use tlb_syntax::Expr;

// A variable alone.
fn variable_input(variable: Option<Variable>) -> Option<PlanInput>
    ensures { option_to_list (option_map input_of result) ≡ variable_form (option_map variable_by variable) }
{
    match variable {
        Some(Variable::Number(slot)) => Some(PlanInput::Nat(Pattern::Var(slot))),
        Some(Variable::Type(slot)) => Some(PlanInput::Ty(slot)),
        Some(Variable::Other) | None => None,
    }
}

// A variable and a literal that is added to it.
fn sum_input(slot: Option<u32>, literal: u32) -> Option<PlanInput>
    ensures { option_to_list (option_map input_of result) ≡ sum_form slot literal }
{
    match slot {
        Some(slot) => Some(PlanInput::Nat(Pattern::Plus(slot, literal))),
        None => None,
    }
}

fn literal_of(e: &Expr) -> u32
    ensures { result ≡ literal_in (expr_view e.now) }
{
    match e {
        Expr::Lit(n) => *n,
        Expr::Sum(_, _, _) => 0,
        _ => 0,
    }
}

// The input that stands at a place of a result, if one does.
fn input(names: &[InScope<'_>], e: &Expr) -> Option<PlanInput>
    ensures { option_to_list (option_map input_of result) ≡ input_form (names_by names.now) (expr_view e.now) }
{
    match e {
        Expr::Lit(n) => Some(PlanInput::Nat(Pattern::Lit(*n))),
        Expr::Named(name, args) => {
            if args.is_empty() {
                variable_input(meaning(names, name))
            } else {
                None
            }
        }
        Expr::Sum(variable, literal, more) => {
            if more.is_empty() {
                sum_input(
                    named_number(names, variable.get()),
                    literal_of(literal.get()),
                )
            } else {
                None
            }
        }
        _ => None,
    }
}

fn keep_input(found: &mut Items<PlanInput>, input: Option<PlanInput>) -> Result<(), NoMemory>
    ensures { OnOk result (map input_of found.new
        ≡ map input_of found.old ++ option_to_list (option_map input_of input)) }
{
    if let Some(input) = input {
        found.push(input)?;
    }
    Ok(())
}

/// The inputs among the parameters of a result.
pub fn inputs(
    alloc: Global,
    names: &[InScope<'_>],
    params: &[Expr],
) -> Result<Items<PlanInput>, NoMemory>
    ensures { IfOk result (λ found. map input_of found ≡ inputs_of (names_by names.now) (exprs_view params.now)) }
{
    let mut found = Items::new(alloc);
    for param in params {
        keep_input(&mut found, input(names, param))?;
    }
    Ok(found)
}

// The number of the output that stands at a place of a result, if one does.
fn output(
    alloc: Global,
    flat: &mut Flat,
    names: &[InScope<'_>],
    e: &Expr,
) -> Result<Option<u32>, NoMemory>
    requires { IsFlat flat.old }
    ensures adds { OnOk result (Adds flat.old flat.new) }
    ensures is { IfOk result (λ o. IsOutput flat.new o (output_of (names_by names.now) (expr_view e.now))) }
{
    match e {
        Expr::Out(inner) => {
            let number = number(alloc, names, inner.get())?;
            let added = flat.add_expression(number)?;
            Ok(Some(added))
        }
        Expr::Sum(_, _, _) => Ok(None),
        _ => Ok(None),
    }
}

fn keep_output(found: &mut Items<u32>, output: Option<u32>) -> Result<(), NoMemory>
    ensures { OnOk result (found.new ≡ found.old ++ option_to_list output) }
{
    if let Some(output) = output {
        found.push(output)?;
    }
    Ok(())
}

/// The numbers of the outputs among the parameters of a result.
pub fn outputs(
    alloc: Global,
    flat: &mut Flat,
    names: &[InScope<'_>],
    params: &[Expr],
) -> Result<Items<u32>, NoMemory>
    requires { IsFlat flat.old }
    ensures adds { OnOk result (Adds flat.old flat.new) }
    ensures are { IfOk result
        (λ found. AreOutputs flat.new found (outputs_of (names_by names.now) (exprs_view params.now))) }
{
    let mut found = Items::new(alloc);
    for param in params {
        let added = output(alloc, flat, names, param)?;
        keep_output(&mut found, added)?;
    }
    Ok(found)
}

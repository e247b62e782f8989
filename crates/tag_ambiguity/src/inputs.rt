//! The patterns of inputs.
ghost use Rattle.std.specs.Prelude.{◌≡◌, ℕ, IfOk, [], option_map};
ghost use Rattle.tlb_syntax.specs.View.{constructor as constructor_view, expr as expr_view, item as item_view};
ghost use Rattle.tlb_syntax.specs.View.{items as items_view};
ghost use Rattle.kind_terms.specs.Params.{bare_name as bare_name_of};
ghost use Rattle.schema_core.specs.CoreOf.{input_of as input_in, inputs_of as inputs_in};
ghost use Rattle.schema_core.specs.CoreOf.{literal_of as literal_in, names_after, names_at_result, sum_input};
ghost use Rattle.schema_core.specs.CoreOf.{variable_input};
ghost use Rattle.schema_core.specs.Names.{declares, meaning};
ghost use Rattle.schema_core.specs.Numbers.{named_number};
ghost use Rattle.schema_leads.specs.Separation.{excluding};
ghost use Rattle.tag_ambiguity.specs.Inputs.{IsVerdict, inputs_by, one_input, plain_inputs};
ghost use Rattle.tag_ambiguity.specs.Inputs.{variable_by as variable_kind};

use bit_slice::Name;
use kind_terms::{bare_name, is_field_of_numbers};
use nat_solver::{Pattern, patterns_exclude};
use sqlite_items::{Items, at};
use std::alloc::Global;
use tlb_memory::NoMemory;
use tlb_syntax::{Constructor, Expr, Item, ParamKind};

/// An input of a result. The number of a pattern's variable says nothing here.
#[derive(Clone, Copy, Debug, PartialEq, Eq)]
pub enum Input {
    Number(Pattern),
    OfType,
}

/// What a name in scope of a result stands for.
#[derive(Clone, Copy, Debug, PartialEq, Eq)]
enum Variable {
    Number,
    OfType,
    Other,
}

// What the item brings into scope, if it is of that name.
fn variable_by(item: &Item, name: &Name) -> Option<Variable>
    ensures { (v : ℕ) → result ≡ option_map variable_kind (meaning (declares (item_view item.now) v) name.now) }
{
    match item {
        Item::Implicit(x, kind) => {
            if x.same(name) {
                match kind {
                    ParamKind::Nat => Some(Variable::Number),
                    ParamKind::Ty => Some(Variable::OfType),
                }
            } else {
                None
            }
        }
        Item::Explicit(Some(x), t) => {
            if x.same(name) {
                if is_field_of_numbers(t) {
                    Some(Variable::Number)
                } else {
                    Some(Variable::Other)
                }
            } else {
                None
            }
        }
        Item::Check(_, _, _) | Item::Explicit(None, _) => None,
    }
}

// What the name stands for after these items.
fn variable_of(items: &[Item], name: &Name) -> Option<Variable>
    ensures { result ≡ option_map variable_kind (meaning (names_after (items_view items.now) [] 0) name.now) }
{
    for item in items {
        if let Some(variable) = variable_by(item, name) {
            return Some(variable);
        }
    }
    None
}

fn literal_of(e: &Expr) -> u32
    ensures { result ≡ literal_in (expr_view e.now) }
{
    match e {
        Expr::Lit(n) => *n,
        Expr::Sum(_, _, _) => 0,
        _ => 0,
    }
}

fn input_by_name(items: &[Item], name: &Name) -> Option<Input>
    ensures { one_input result
        ≡ plain_inputs (variable_input (meaning (names_after (items_view items.now) [] 0) name.now)) }
{
    match variable_of(items, name) {
        Some(Variable::Number) => Some(Input::Number(Pattern::Var(0))),
        Some(Variable::OfType) => Some(Input::OfType),
        Some(Variable::Other) | None => None,
    }
}

// The input of `v + k`.
fn input_by_sum(items: &[Item], v: &Expr, k: &Expr) -> Option<Input>
    ensures { one_input result ≡ plain_inputs (sum_input
        (named_number (names_after (items_view items.now) [] 0) (bare_name_of (expr_view v.now)))
        (literal_in (expr_view k.now))) }
{
    let name = bare_name(v)?;
    match variable_of(items, name) {
        Some(Variable::Number) => Some(Input::Number(Pattern::Plus(0, literal_of(k)))),
        Some(Variable::OfType) | Some(Variable::Other) | None => None,
    }
}

fn input_of(items: &[Item], e: &Expr) -> Option<Input>
    ensures { one_input result
        ≡ plain_inputs (input_in (names_after (items_view items.now) [] 0) (expr_view e.now)) }
{
    match e {
        Expr::Lit(n) => Some(Input::Number(Pattern::Lit(*n))),
        Expr::Named(name, args) => {
            if args.is_empty() {
                input_by_name(items, name)
            } else {
                None
            }
        }
        Expr::Sum(v, k, more) => {
            if more.is_empty() {
                input_by_sum(items, v.get(), k.get())
            } else {
                None
            }
        }
        _ => None,
    }
}

/// The inputs of a constructor's result.
pub fn inputs_of(alloc: Global, constructor: &Constructor) -> Result<Items<Input>, NoMemory>
    ensures { IfOk result (λ inputs. inputs_by inputs
        ≡ plain_inputs (inputs_in (names_at_result (constructor_view constructor.now))
        (constructor_view constructor.now).params)) }
{
    let mut inputs = Items::new(alloc);
    for e in constructor.params.as_slice() {
        if let Some(input) = input_of(constructor.items.as_slice(), e) {
            inputs.push(input)?;
        }
    }
    Ok(inputs)
}

// Whether two inputs settle the question: by numbers that exclude each other, or as they are of different kinds.
fn verdict(p: &Input, q: &Input) -> Option<bool>
    ensures { IsVerdict p.now q.now result }
{
    match (p, q) {
        (Input::Number(p), Input::Number(q)) => {
            if patterns_exclude(p, q) {
                Some(true)
            } else {
                None
            }
        }
        (Input::OfType, Input::OfType) => None,
        (_, _) => Some(false),
    }
}

/// Whether at some number no number meets the patterns of both.
pub fn are_excluding(ps: &[Input], qs: &[Input]) -> bool
    ensures { result ≡ excluding (inputs_by ps.now) (inputs_by qs.now) }
{
    for (place, p) in ps.iter().enumerate() {
        let Some(q) = at(qs, place) else {
            return false;
        };
        if let Some(answer) = verdict(p, q) {
            return answer;
        }
    }
    false
}

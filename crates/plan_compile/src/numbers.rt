//! Numbers, with slots for names.
ghost use Rattle.std.specs.Prelude.{◌≡◌, ◌+◌, ◌++◌, [], IfOk, OnOk, map, option_map};
ghost use Rattle.nat_solver.specs.Number.{times as times_of, unknowns};
ghost use Rattle.nat_solver.specs.View.{expr as number_view};
ghost use Rattle.tlb_syntax.specs.View.{expr as expr_view, exprs as exprs_view};
ghost use Rattle.kind_terms.specs.Closed.{closed as closed_value};
ghost use Rattle.kind_terms.specs.Params.{bare_name as bare_name_of};
ghost use Rattle.schema_core.specs.Numbers.{first_number as first_number_of, named_number as named_number_of};
ghost use Rattle.schema_core.specs.Numbers.{no_number};
ghost use Rattle.schema_core.specs.Numbers.{number_of, side_of, unknown_by, variable_or_none};
ghost use Rattle.plan_compile.specs.Terms.{out_of, term_of};
ghost use Rattle.plan_compile.specs.Views.{names_by};

use crate::names::{InScope, number_called};
use flat_form::NO_SLOT;
use kind_terms::{bare_name, closed};
use nat_solver::{NatExpr, Op, sought};
use sqlite_items::{Boxed, Items};
use std::alloc::Global;
use tlb_memory::NoMemory;
use tlb_syntax::Expr;

/// One more, as a slot, a place or a count. Memory ends before there are more.
pub fn one_more(n: u32) -> Result<u32, NoMemory>
    ensures { IfOk result (λ m. m ≡ n + 1) }
{
    if n < u32::MAX {
        Ok(n + 1)
    } else {
        Err(NoMemory)
    }
}

/// What has no meaning as a number.
pub fn nothing() -> NatExpr
    ensures { number_view result ≡ no_number }
{
    NatExpr::Var(NO_SLOT)
}

// The variable that a name alone is.
fn variable(slot: Option<u32>) -> NatExpr
    ensures { number_view result ≡ variable_or_none slot }
{
    match slot {
        Some(slot) => NatExpr::Var(slot),
        None => nothing(),
    }
}

// The slot of the number that an expression names, if it is a name alone.
pub fn named_number(names: &[InScope<'_>], e: &Expr) -> Option<u32>
    ensures { result ≡ named_number_of (names_by names.now) (bare_name_of (expr_view e.now)) }
{
    match bare_name(e) {
        Some(name) => number_called(names, name),
        None => None,
    }
}

// `~` and its operand: the unknown of an equation, on a side of one.
fn unknown_of(names: &[InScope<'_>], e: &Expr, is_side: bool) -> NatExpr
    ensures { number_view result ≡ out_of is_side (names_by names.now) (bare_name_of (expr_view e.now)) }
{
    if !is_side {
        return nothing();
    }
    match named_number(names, e) {
        Some(slot) => NatExpr::Sought(slot),
        None => nothing(),
    }
}

// The value of a number without variables. In an accepted schema it is below 2^32.
fn factor(e: &Expr) -> Result<Option<u32>, NoMemory>
    ensures { IfOk result (λ k. k ≡ closed_value (expr_view e.now)) }
{
    match closed(e) {
        None => Ok(None),
        Some(k) => {
            if k > u64::from(u32::MAX) {
                Err(NoMemory)
            } else {
                Ok(Some(k as u32))
            }
        }
    }
}

fn times(alloc: Global, k: u32, number: NatExpr) -> Result<NatExpr, NoMemory>
    ensures { IfOk result (λ n. number_view n ≡ times_of k (number_view number)) }
{
    Ok(NatExpr::Times(k, Boxed::new(alloc, number)?))
}

// A number, or a side of an equation.
#[cycle(term)]
fn term(alloc: Global, names: &[InScope<'_>], e: &Expr, is_side: bool) -> Result<NatExpr, NoMemory>
    ensures { IfOk result (λ n. number_view n ≡ term_of is_side (names_by names.now) (expr_view e.now)) }
{
    match e {
        Expr::Lit(n) => Ok(NatExpr::Lit(*n)),
        Expr::Named(name, args) => {
            if args.is_empty() {
                Ok(variable(number_called(names, name)))
            } else {
                Ok(nothing())
            }
        }
        Expr::Sum(first, second, more) => {
            let mut sum = Items::new(alloc);
            sum.push(term(alloc, names, first.get(), is_side)?)?;
            sum.push(term(alloc, names, second.get(), is_side)?)?;
            add_terms(alloc, names, more.as_slice(), is_side, &mut sum)?;
            Ok(NatExpr::Sum(sum))
        }
        Expr::Star(left, right) => match factor(left.get())? {
            Some(k) => {
                let number = term(alloc, names, right.get(), is_side)?;
                times(alloc, k, number)
            }
            None => match factor(right.get())? {
                Some(k) => {
                    let number = term(alloc, names, left.get(), is_side)?;
                    times(alloc, k, number)
                }
                None => Ok(nothing()),
            },
        },
        Expr::Out(inner) => Ok(unknown_of(names, inner.get(), is_side)),
        Expr::Nat32 => Ok(nothing()),
        Expr::Bits(_) => Ok(nothing()),
        Expr::Below(_) => Ok(nothing()),
        Expr::UpTo(_) => Ok(nothing()),
        Expr::Ref(_) => Ok(nothing()),
        Expr::Group(_) => Ok(nothing()),
    }
}

#[cycle(term)]
fn add_terms(
    alloc: Global,
    names: &[InScope<'_>],
    terms: &[Expr],
    is_side: bool,
    sum: &mut Items<NatExpr>,
) -> Result<(), NoMemory>
    ensures { OnOk result (map number_view sum.new
        ≡ map number_view sum.old ++ map (term_of is_side (names_by names.now)) (map expr_view terms.now)) }
{
    for added in terms {
        sum.push(term(alloc, names, added, is_side)?)?;
    }
    Ok(())
}

/// A number of the schema, in which no unknown stands.
pub fn number(alloc: Global, names: &[InScope<'_>], e: &Expr) -> Result<NatExpr, NoMemory>
    ensures is { IfOk result (λ n. number_view n ≡ number_of (names_by names.now) (expr_view e.now)) }
    ensures plain { IfOk result (λ n. unknowns (number_view n) ≡ []) }
{
    term(alloc, names, e, false)
}

/// A side of an equation.
pub fn side(alloc: Global, names: &[InScope<'_>], e: &Expr) -> Result<NatExpr, NoMemory>
    ensures { IfOk result (λ n. number_view n ≡ side_of (names_by names.now) (expr_view e.now)) }
{
    term(alloc, names, e, true)
}

/// The unknown of a constraint with these sides, if it is an equation that has one.
pub fn unknown(op: Op, left: &NatExpr, right: &NatExpr) -> Option<u32>
    ensures { result ≡ unknown_by op (number_view left.now) (number_view right.now) }
{
    match op {
        Op::Eq => sought(left, right),
        Op::Lt | Op::Le | Op::Gt | Op::Ge => None,
    }
}

/// The first argument, as a number.
pub fn first_number(
    alloc: Global,
    names: &[InScope<'_>],
    args: &[Expr],
) -> Result<NatExpr, NoMemory>
    ensures is { IfOk result (λ n. number_view n ≡ first_number_of (names_by names.now) (exprs_view args.now)) }
    ensures plain { IfOk result (λ n. unknowns (number_view n) ≡ []) }
{
    match args {
        [] => Ok(nothing()),
        [first, ..] => number(alloc, names, first),
    }
}

//! The `~` of equations and of arguments.
ghost use Rattle.std.specs.Prelude.{◌≡◌, ◌&&◌, ◌++◌, ◌-◌, ◌^◌, Some, length, map, min, option_map, take, OnOk};
ghost use Rattle.std.specs.List.{list_any};
ghost use Rattle.tlb_syntax.specs.Tree.{star};
ghost use Rattle.tlb_syntax.specs.View.{constructor, expr, exprs, field_type, item as item_view};
ghost use Rattle.kind_terms.specs.Closed.{closed as closed_value, is_zero};
ghost use Rattle.kind_terms.specs.Forms.{is_field_of_numbers as is_type_of_numbers, parts, parts_of_all};
ghost use Rattle.kind_terms.specs.Outs.{joined as join, outs_by, outs_of};
ghost use Rattle.kind_terms.specs.Scopes.{all_given_out, given_out, if_input, makes_known, outputs_of, own_number};
ghost use Rattle.kind_terms.specs.Scopes.{type_outputs};
ghost use Rattle.kind_terms.specs.Sought.{can_be_sought as may_be_sought, cancels as is_cancelling};
ghost use Rattle.kind_terms.specs.Sought.{holds_out as has_out, sides, sought as sought_by};
ghost use Rattle.kind_terms.specs.Sought.{sought_in as sought_by_equation, unknown_of as unknown_by, uses};

use crate::kind::TermKind;
use crate::numbers::closed;
use crate::scope::is_among;
use crate::shape::{bare_name, is_field_of_numbers, out_name};
use crate::types::Types;
use bit_slice::Name;
use sqlite_items::Items;
use std::alloc::AllocError;
use tlb_syntax::{Expr, FieldType, Item, Op};

// The `~` that stand in expressions.
#[derive(Clone, Copy)]
enum Outs<'a> {
    Nothing,
    // One, with the x of `~x`.
    One(Option<&'a Name>),
    Several,
}

fn joined<'a>(first: Outs<'a>, second: Outs<'a>) -> Outs<'a>
    ensures { outs_by result ≡ join (outs_by first.entry) (outs_by second.entry) }
{
    match first {
        Outs::Nothing => second,
        Outs::One(name) => match second {
            Outs::Nothing => Outs::One(name),
            Outs::One(_) => Outs::Several,
            Outs::Several => Outs::Several,
        },
        Outs::Several => Outs::Several,
    }
}

#[cycle(outs)]
fn outs_in<'a>(e: &'a Expr) -> Outs<'a>
    ensures { outs_by result ≡ outs_of (parts (expr e.now)) }
{
    match e {
        Expr::Lit(_) => Outs::Nothing,
        Expr::Nat32 => Outs::Nothing,
        Expr::Group(_) => Outs::Nothing,
        Expr::Named(_, args) => outs_in_all(args.as_slice()),
        Expr::Bits(args) => outs_in_all(args.as_slice()),
        Expr::Below(args) => outs_in_all(args.as_slice()),
        Expr::UpTo(args) => outs_in_all(args.as_slice()),
        Expr::Sum(first, second, more) => joined(
            joined(outs_in(first.get()), outs_in(second.get())),
            outs_in_all(more.as_slice()),
        ),
        Expr::Star(left, right) => joined(outs_in(left.get()), outs_in(right.get())),
        Expr::Out(inner) => joined(Outs::One(bare_name(inner.get())), outs_in(inner.get())),
        Expr::Ref(inner) => outs_in(inner.get()),
    }
}

#[cycle(outs)]
fn outs_in_all<'a>(es: &'a [Expr]) -> Outs<'a>
    ensures { outs_by result ≡ outs_of (parts_of_all (exprs es.now)) }
{
    let mut outs = Outs::Nothing;
    for e in es {
        outs = joined(outs, outs_in(e));
    }
    outs
}

#[tactic(auto, using(crate::proofs::PartSums::any_out))]
fn holds_out(e: &Expr) -> bool
    ensures { result ≡ has_out (expr e.now) }
{
    match outs_in(e) {
        Outs::Nothing => false,
        Outs::One(_) => true,
        Outs::Several => true,
    }
}

// How often the name stands in the expression, without arguments.
#[cycle(occur)]
fn occurrences(e: &Expr, name: &Name) -> usize
    ensures { result ≡ min (2 ^ 64 - 1) (uses name.now (parts (expr e.now))) }
{
    match e {
        Expr::Lit(_) => 0,
        Expr::Nat32 => 0,
        Expr::Group(_) => 0,
        Expr::Named(found, args) => {
            if args.is_empty() {
                if found.text() == name.text() { 1 } else { 0 }
            } else {
                occurrences_in(args.as_slice(), name)
            }
        }
        Expr::Bits(args) => occurrences_in(args.as_slice(), name),
        Expr::Below(args) => occurrences_in(args.as_slice(), name),
        Expr::UpTo(args) => occurrences_in(args.as_slice(), name),
        Expr::Sum(first, second, more) => occurrences(first.get(), name)
            .saturating_add(occurrences(second.get(), name))
            .saturating_add(occurrences_in(more.as_slice(), name)),
        Expr::Star(left, right) => occurrences(left.get(), name).saturating_add(occurrences(
            right.get(),
            name,
        )),
        Expr::Out(inner) => occurrences(inner.get(), name),
        Expr::Ref(inner) => occurrences(inner.get(), name),
    }
}

#[cycle(occur)]
fn occurrences_in(es: &[Expr], name: &Name) -> usize
    ensures { result ≡ min (2 ^ 64 - 1) (uses name.now (parts_of_all (exprs es.now))) }
{
    let mut count: usize = 0;
    for e in es {
        count = count.saturating_add(occurrences(e, name));
    }
    count
}

// Whether some product has a factor 0, and a `~` in the other.
#[tactic(auto, using(crate::proofs::PartSums::cancels_of_star))]
#[cycle(cancel)]
fn cancels(e: &Expr) -> bool
    ensures { result ≡ list_any is_cancelling (parts (expr e.now)) }
{
    match e {
        Expr::Lit(_) => false,
        Expr::Nat32 => false,
        Expr::Group(_) => false,
        Expr::Named(_, args) => cancels_in(args.as_slice()),
        Expr::Bits(args) => cancels_in(args.as_slice()),
        Expr::Below(args) => cancels_in(args.as_slice()),
        Expr::UpTo(args) => cancels_in(args.as_slice()),
        Expr::Sum(first, second, more) => {
            cancels(first.get()) || cancels(second.get()) || cancels_in(more.as_slice())
        }
        Expr::Star(left, right) => {
            is_product_cancelled(left.get(), right.get())
                || cancels(left.get())
                || cancels(right.get())
        }
        Expr::Out(inner) => cancels(inner.get()),
        Expr::Ref(inner) => cancels(inner.get()),
    }
}

#[tactic(auto, using(crate::proofs::Capped::is_zero_of_capped))]
fn is_cancelled(factor: &Expr, other: &Expr) -> bool
    ensures { result ≡ (is_zero (closed_value (expr factor.now)) && has_out (expr other.now)) }
{
    matches!(closed(factor), Some(0)) && holds_out(other)
}

fn is_product_cancelled(left: &Expr, right: &Expr) -> bool
    ensures { result ≡ is_cancelling (star (expr left.now) (expr right.now)) }
{
    is_cancelled(left, right) || is_cancelled(right, left)
}

#[cycle(cancel)]
fn cancels_in(es: &[Expr]) -> bool
    ensures { result ≡ list_any is_cancelling (parts_of_all (exprs es.now)) }
{
    for e in es {
        if cancels(e) {
            return true;
        }
    }
    false
}

// The x of the one `~` of an equation, if that is `~x`.
#[tactic(auto, using(crate::proofs::PartSums::unknown_of_outs))]
fn unknown_of<'a>(left: &'a Expr, right: &'a Expr) -> Option<&'a Name>
    ensures { option_map (λ x. x.now) result ≡ unknown_by (sides (expr left.now) (expr right.now)) }
{
    match joined(outs_in(left), outs_in(right)) {
        Outs::Nothing => None,
        Outs::One(name) => name,
        Outs::Several => None,
    }
}

// Whether the name occurs once in an equation, and no `~` stands there under a factor 0.
fn can_be_sought(left: &Expr, right: &Expr, name: &Name) -> bool
    ensures { result ≡ may_be_sought (sides (expr left.now) (expr right.now)) name.now }
{
    occurrences(left, name).saturating_add(occurrences(right, name)) == 1
        && !cancels(left)
        && !cancels(right)
}

fn sought_in<'a>(left: &'a Expr, right: &'a Expr) -> Option<&'a Name>
    ensures { option_map (λ x. x.now) result ≡ sought_by_equation (Some (sides (expr left.now) (expr right.now))) }
{
    let name = unknown_of(left, right)?;
    if can_be_sought(left, right, name) {
        Some(name)
    } else {
        None
    }
}

/// The variable that a constraint seeks: the x of its one `~`, where it is an equation in which x occurs once and not
/// under a factor 0.
pub fn sought<'a>(left: &'a Expr, op: Op, right: &'a Expr) -> Option<&'a Name>
    ensures { option_map (λ x. x.now) result ≡ sought_by (expr left.now) op (expr right.now) }
{
    match op {
        Op::Eq => sought_in(left, right),
        Op::Lt => None,
        Op::Le => None,
        Op::Gt => None,
        Op::Ge => None,
    }
}

// Adds the x of an argument `~x` at an output place.
fn add_output<'a>(
    kind: TermKind,
    arg: &'a Expr,
    known: &mut Items<&'a Name>,
) -> Result<(), AllocError>
    ensures names { OnOk result
        (map (λ x. x.now) known.new ≡ map (λ x. x.now) known.old ++ given_out kind (expr arg.now)) }
    ensures kept { OnOk result (take (length known.old) known.new ≡ known.old) }
{
    match kind {
        TermKind::NumberOut => match out_name(arg) {
            Some(name) => known.push(name),
            None => Ok(()),
        },
        TermKind::NumberIn(_) => Ok(()),
        TermKind::TypeIn => Ok(()),
        TermKind::NoKind => Ok(()),
    }
}

fn add_outputs<'a>(
    kinds: &[TermKind],
    args: &'a [Expr],
    known: &mut Items<&'a Name>,
) -> Result<(), AllocError>
    ensures names { OnOk result
        (map (λ x. x.now) known.new ≡ map (λ x. x.now) known.old ++ all_given_out kinds.now (exprs args.now)) }
    ensures kept { OnOk result (take (length known.old) known.new ≡ known.old) }
{
    let mut rest = kinds;
    for arg in args {
        let [kind, more @ ..] = rest else {
            return Ok(());
        };
        add_output(*kind, arg, known)?;
        rest = more;
    }
    Ok(())
}

// Adds the outputs of a field's whole type.
fn add_outputs_of<'a>(
    types: &Types<'_>,
    e: &'a Expr,
    known: &mut Items<&'a Name>,
) -> Result<(), AllocError>
    ensures names { OnOk result
        (map (λ x. x.now) known.new
        ≡ map (λ x. x.now) known.old ++ outputs_of (map constructor types.now) (expr e.now)) }
    ensures kept { OnOk result (take (length known.old) known.new ≡ known.old) }
{
    match e {
        Expr::Named(name, args) => {
            let named = types.named(name.text(), !args.is_empty());
            add_outputs(named.parameters(), args.as_slice(), known)
        }
        Expr::Sum(_, _, _) => Ok(()),
        Expr::Lit(_) => Ok(()),
        Expr::Nat32 => Ok(()),
        Expr::Bits(_) => Ok(()),
        Expr::Below(_) => Ok(()),
        Expr::UpTo(_) => Ok(()),
        Expr::Star(_, _) => Ok(()),
        Expr::Out(_) => Ok(()),
        Expr::Ref(_) => Ok(()),
        Expr::Group(_) => Ok(()),
    }
}

// Adds a field of numbers itself.
fn add_number<'a>(
    name: Option<&'a Name>,
    t: &FieldType,
    known: &mut Items<&'a Name>,
) -> Result<(), AllocError>
    ensures names { OnOk result
        (map (λ x. x.now) known.new
        ≡ map (λ x. x.now) known.old
        ++ own_number (is_type_of_numbers (field_type t.now)) (option_map (λ x. x.now) name.entry)) }
    ensures kept { OnOk result (take (length known.old) known.new ≡ known.old) }
{
    match name {
        Some(name) => {
            if is_field_of_numbers(t) {
                known.push(name)
            } else {
                Ok(())
            }
        }
        None => Ok(()),
    }
}

// Adds the name, where it is that of an input.
fn add_input<'a>(
    inputs: &[&Name],
    name: &'a Name,
    known: &mut Items<&'a Name>,
) -> Result<(), AllocError>
    ensures names { OnOk result
        (map (λ x. x.now) known.new
        ≡ map (λ x. x.now) known.old ++ if_input (map (λ x. x.now) inputs.now) name.now) }
    ensures kept { OnOk result (take (length known.old) known.new ≡ known.old) }
{
    if is_among(inputs, name) {
        known.push(name)
    } else {
        Ok(())
    }
}

/// Adds what an item makes known, to whose record these inputs belong: the implicit field of an input and a number
/// field itself, the outputs of a field, the unknown of an equation.
pub fn add_known<'a>(
    types: &Types<'_>,
    inputs: &[&Name],
    item: &'a Item,
    known: &mut Items<&'a Name>,
) -> Result<(), AllocError>
    ensures names { OnOk result
        (map (λ x. x.now) known.new
        ≡ map (λ x. x.now) known.old
        ++ makes_known (map constructor types.now) (map (λ x. x.now) inputs.now) (item_view item.now)) }
    ensures kept { OnOk result (take (length known.old) known.new ≡ known.old) }
{
    match item {
        Item::Implicit(name, _) => add_input(inputs, name, known),
        Item::Check(left, op, right) => match sought(left, *op, right) {
            Some(name) => known.push(name),
            None => Ok(()),
        },
        Item::Explicit(name, t) => {
            add_number(name.as_ref(), t, known)?;
            add_type_outputs(types, t, known)
        }
    }
}

fn add_type_outputs<'a>(
    types: &Types<'_>,
    t: &'a FieldType,
    known: &mut Items<&'a Name>,
) -> Result<(), AllocError>
    ensures names { OnOk result
        (map (λ x. x.now) known.new
        ≡ map (λ x. x.now) known.old ++ type_outputs (map constructor types.now) (field_type t.now)) }
    ensures kept { OnOk result (take (length known.old) known.new ≡ known.old) }
{
    match t {
        FieldType::Plain(e) => add_outputs_of(types, e, known),
        FieldType::If(_, _) => Ok(()),
        FieldType::IfBit(_, _, _) => Ok(()),
    }
}

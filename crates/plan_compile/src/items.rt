//! Items and records.
ghost use Rattle.std.specs.Prelude.{◌≡◌, ◌<◌, ◌+◌, ◌++◌, IfOk, OnOk, length, map, option_map};
ghost use Rattle.tlb_syntax.specs.View.{constructor as constructor_view, expr as expr_view, field_type as type_view};
ghost use Rattle.tlb_syntax.specs.View.{item as item_view, items as items_view};
ghost use Rattle.kind_terms.specs.Forms.{is_field_of_numbers as is_type_of_numbers};
ghost use Rattle.kind_terms.specs.Positions.{is_unnamed as is_unnamed_item};
ghost use Rattle.core_form.specs.Core as core;
ghost use Rattle.schema_core.specs.Slots.{field_slots, next_slot, slots_at, slots_in, slots_under, type_slots};
ghost use Rattle.schema_core.specs.CoreOf.{body_of, constraint_of, field_of, item_of, items_of, names_after, own_slot};
ghost use Rattle.schema_core.specs.CoreOf.{under_ref, unnamed_by};
ghost use Rattle.flat_form.specs.Stands.{slot_of, type_at};
ghost use Rattle.flat_form.specs.Sound.{IsFlat};
ghost use Rattle.flat_form.specs.Growth.{Adds};
ghost use Rattle.flat_form.specs.Parts.{AreOps, IsPlainCondition, condition_of, items_so_far, with_item};
ghost use Rattle.plan_compile.specs.Views.{names_by, with_some};

use crate::names::{InScope, declare};
use crate::numbers::{number, one_more, side, unknown};
use crate::shown::shown_name;
use crate::types::compile_type;
use bit_slice::Name;
use flat_form::{Flat, NO_BIT, NO_SLOT, PlanOp};
use kind_terms::{Types, is_field_of_numbers, is_unnamed};
use nat_solver::{NatExpr, Op};
use sqlite_items::Items;
use std::alloc::Global;
use tlb_memory::NoMemory;
use tlb_syntax::{Expr, FieldType, Item};

// The slot that a field takes, if it has a name and is of numbers.
fn take_slot(next: &mut u32, name: Option<&Name>, ty: &FieldType) -> Result<u32, NoMemory>
    ensures slot { IfOk result (λ slot. slot_of slot
        ≡ own_slot (option_map (λ x. x.now) name.entry) (is_type_of_numbers (type_view ty.now)) next.old) }
    ensures next { OnOk result (next.new
        ≡ next.old + field_slots (option_map (λ x. x.now) name.entry) (is_type_of_numbers (type_view ty.now))) }
{
    if name.is_none() || !is_field_of_numbers(ty) {
        return Ok(NO_SLOT);
    }
    let slot = *next;
    *next = one_more(slot)?;
    Ok(slot)
}

// The number of unnamed fields after an item.
fn unnamed_after(unnamed: u32, item: &Item) -> Result<u32, NoMemory>
    ensures { IfOk result (λ n. n ≡ unnamed_by (is_unnamed_item (item_view item.now)) unnamed) }
{
    if is_unnamed(item) {
        one_more(unnamed)
    } else {
        Ok(unnamed)
    }
}

// Puts a constraint after the operations: an equation where it has an unknown, else a check.
fn compile_constraint(
    alloc: Global,
    flat: &mut Flat,
    names: &[InScope<'_>],
    left: &Expr,
    op: Op,
    right: &Expr,
    place: u32,
    ops: &mut Items<PlanOp>,
) -> Result<(), NoMemory>
    requires flat { IsFlat flat.old }
    requires ops { AreOps flat.old ops.old }
    ensures adds { OnOk result (Adds flat.old flat.new) }
    ensures ops { OnOk result (AreOps flat.new ops.new) }
    ensures stands { OnOk result (items_so_far flat.new ops.new ≡ with_item (items_so_far flat.old ops.old)
        (constraint_of (names_by names.now) (expr_view left.now) op (expr_view right.now) place)) }
{
    let left_side = side(alloc, names, left)?;
    let right_side = side(alloc, names, right)?;
    match unknown(op, &left_side, &right_side) {
        Some(slot) => flat.push_solve(ops, slot, left_side, right_side, place),
        None => {
            let left = number(alloc, names, left)?;
            let right = number(alloc, names, right)?;
            flat.push_check(ops, left, op, right, place)
        }
    }
}

// The number of the type that is added for that of a field: a record, a record under `^`, or another type.
#[cycle(items)]
fn compile_body<'a>(
    alloc: Global,
    flat: &mut Flat,
    types: &Types<'_>,
    names: &[InScope<'a>],
    next: &mut u32,
    e: &'a Expr,
) -> Result<u32, NoMemory>
    requires { IsFlat flat.old }
    ensures adds { OnOk result (Adds flat.old flat.new) }
    ensures there { IfOk result (λ t. t < length flat.new.types) }
    ensures stands { IfOk result (λ t. type_at flat.new t
        ≡ body_of (map constructor_view types.now) (names_by names.now) next.old (expr_view e.now)) }
    ensures next { OnOk result (next.new ≡ next.old + slots_at (expr_view e.now)) }
{
    match e {
        Expr::Group(items) => {
            let ops = compile_record(alloc, flat, types, names, next, items.as_slice())?;
            flat.add_group(ops)
        }
        Expr::Ref(inner) => {
            let inner = compile_under_ref(alloc, flat, types, names, next, inner.get())?;
            flat.add_ref(inner)
        }
        Expr::Sum(_, _, _) => compile_type(alloc, flat, types, names, e),
        Expr::Lit(_)
        | Expr::Named(_, _)
        | Expr::Nat32
        | Expr::Bits(_)
        | Expr::Below(_)
        | Expr::UpTo(_)
        | Expr::Star(_, _)
        | Expr::Out(_) => compile_type(alloc, flat, types, names, e),
    }
}

// The same under `^`.
#[cycle(items)]
fn compile_under_ref<'a>(
    alloc: Global,
    flat: &mut Flat,
    types: &Types<'_>,
    names: &[InScope<'a>],
    next: &mut u32,
    e: &'a Expr,
) -> Result<u32, NoMemory>
    requires { IsFlat flat.old }
    ensures adds { OnOk result (Adds flat.old flat.new) }
    ensures there { IfOk result (λ t. t < length flat.new.types) }
    ensures stands { IfOk result (λ t. type_at flat.new t
        ≡ under_ref (map constructor_view types.now) (names_by names.now) next.old (expr_view e.now)) }
    ensures next { OnOk result (next.new ≡ next.old + slots_under (expr_view e.now)) }
{
    match e {
        Expr::Group(items) => {
            let ops = compile_record(alloc, flat, types, names, next, items.as_slice())?;
            flat.add_group(ops)
        }
        Expr::Sum(_, _, _) => compile_type(alloc, flat, types, names, e),
        Expr::Lit(_)
        | Expr::Named(_, _)
        | Expr::Nat32
        | Expr::Bits(_)
        | Expr::Below(_)
        | Expr::UpTo(_)
        | Expr::Star(_, _)
        | Expr::Out(_)
        | Expr::Ref(_) => compile_type(alloc, flat, types, names, e),
    }
}

// Puts a field of this shown name, slot and condition after the operations, once its type is added.
#[cycle(items)]
fn compile_field<'a>(
    alloc: Global,
    flat: &mut Flat,
    types: &Types<'_>,
    names: &[InScope<'a>],
    next: &mut u32,
    shown: Name,
    slot: u32,
    condition: Option<(NatExpr, u32)>,
    e: &'a Expr,
    ops: &mut Items<PlanOp>,
) -> Result<(), NoMemory>
    requires flat { IsFlat flat.old }
    requires ops { AreOps flat.old ops.old }
    requires plain { IsPlainCondition condition }
    ensures adds { OnOk result (Adds flat.old flat.new) }
    ensures ops { OnOk result (AreOps flat.new ops.new) }
    ensures stands { OnOk result (items_so_far flat.new ops.new ≡ with_item (items_so_far flat.old ops.old)
        (core.field shown (slot_of slot) (condition_of condition)
        (body_of (map constructor_view types.now) (names_by names.now) next.old (expr_view e.now)))) }
    ensures next { OnOk result (next.new ≡ next.old + slots_at (expr_view e.now)) }
{
    let ty = compile_body(alloc, flat, types, names, next, e)?;
    flat.push_field(ops, shown, ty, slot, condition)
}

// Puts a field of this shown name and slot after the operations. In an accepted schema a tested bit is at most 31.
#[cycle(items)]
fn compile_field_type<'a>(
    alloc: Global,
    flat: &mut Flat,
    types: &Types<'_>,
    names: &[InScope<'a>],
    next: &mut u32,
    shown: Name,
    slot: u32,
    ty: &'a FieldType,
    ops: &mut Items<PlanOp>,
) -> Result<(), NoMemory>
    requires flat { IsFlat flat.old }
    requires ops { AreOps flat.old ops.old }
    ensures adds { OnOk result (Adds flat.old flat.new) }
    ensures ops { OnOk result (AreOps flat.new ops.new) }
    ensures stands { OnOk result (items_so_far flat.new ops.new ≡ with_item (items_so_far flat.old ops.old)
        (field_of (map constructor_view types.now) (names_by names.now) shown (slot_of slot) next.old
        (type_view ty.now))) }
    ensures next { OnOk result (next.new ≡ next.old + type_slots (type_view ty.now)) }
{
    match ty {
        FieldType::Plain(e) => {
            compile_field(alloc, flat, types, names, next, shown, slot, None, e, ops)
        }
        FieldType::If(tested, e) => {
            let condition = Some((number(alloc, names, tested)?, NO_BIT));
            compile_field(
                alloc, flat, types, names, next, shown, slot, condition, e, ops,
            )
        }
        FieldType::IfBit(tested, bit, e) => {
            if *bit > 31 {
                return Err(NoMemory);
            }
            let condition = Some((number(alloc, names, tested)?, *bit));
            compile_field(
                alloc, flat, types, names, next, shown, slot, condition, e, ops,
            )
        }
    }
}

// Puts what an item does after the operations.
#[cycle(items)]
fn compile_item<'a>(
    alloc: Global,
    flat: &mut Flat,
    types: &Types<'_>,
    names: &[InScope<'a>],
    next: &mut u32,
    place: u32,
    unnamed: u32,
    item: &'a Item,
    ops: &mut Items<PlanOp>,
) -> Result<(), NoMemory>
    requires flat { IsFlat flat.old }
    requires ops { AreOps flat.old ops.old }
    ensures adds { OnOk result (Adds flat.old flat.new) }
    ensures ops { OnOk result (AreOps flat.new ops.new) }
    ensures stands { OnOk result (items_so_far flat.new ops.new ≡ with_some (items_so_far flat.old ops.old)
        (item_of (map constructor_view types.now) (names_by names.now) next.old place unnamed (item_view item.now))) }
    ensures next { OnOk result (next.new ≡ next_slot next.old (item_view item.now)) }
{
    match item {
        Item::Implicit(_, _) => {
            *next = one_more(*next)?;
            Ok(())
        }
        Item::Check(left, op, right) => {
            compile_constraint(alloc, flat, names, left, *op, right, place, ops)
        }
        Item::Explicit(name, ty) => {
            let shown = shown_name(alloc, name.as_ref(), unnamed)?;
            let slot = take_slot(next, name.as_ref(), ty)?;
            compile_field_type(alloc, flat, types, names, next, shown, slot, ty, ops)
        }
    }
}

/// The operations of a record's items, which are in no list yet. The names that the items declare come into scope.
#[cycle(items)]
pub fn compile_items<'a>(
    alloc: Global,
    flat: &mut Flat,
    types: &Types<'_>,
    names: &mut Items<InScope<'a>>,
    next: &mut u32,
    items: &'a [Item],
) -> Result<Items<PlanOp>, NoMemory>
    requires { IsFlat flat.old }
    ensures adds { OnOk result (Adds flat.old flat.new) }
    ensures ops { IfOk result (λ ops. AreOps flat.new ops) }
    ensures stands { IfOk result (λ ops. items_so_far flat.new ops
        ≡ items_of (map constructor_view types.now) (names_by names.old) next.old 1 0 (items_view items.now)) }
    ensures next { OnOk result (next.new ≡ next.old + slots_in (items_view items.now)) }
    ensures names { OnOk result (names_by names.new
        ≡ names_after (items_view items.now) (names_by names.old) next.old) }
{
    let mut ops = Items::new(alloc);
    let mut place = 1u32;
    let mut unnamed = 0u32;
    for item in items {
        let slot = *next;
        compile_item(
            alloc,
            flat,
            types,
            names.as_slice(),
            next,
            place,
            unnamed,
            item,
            &mut ops,
        )?;
        declare(names, item, slot)?;
        place = one_more(place)?;
        unnamed = unnamed_after(unnamed, item)?;
    }
    Ok(ops)
}

// The operations of a record in a record, whose names end with it.
#[cycle(items)]
fn compile_record<'a>(
    alloc: Global,
    flat: &mut Flat,
    types: &Types<'_>,
    around: &[InScope<'a>],
    next: &mut u32,
    items: &'a [Item],
) -> Result<Items<PlanOp>, NoMemory>
    requires { IsFlat flat.old }
    ensures adds { OnOk result (Adds flat.old flat.new) }
    ensures ops { IfOk result (λ ops. AreOps flat.new ops) }
    ensures stands { IfOk result (λ ops. items_so_far flat.new ops
        ≡ items_of (map constructor_view types.now) (names_by around.now) next.old 1 0 (items_view items.now)) }
    ensures next { OnOk result (next.new ≡ next.old + slots_in (items_view items.now)) }
{
    let mut names = Items::from_slice(alloc, around)?;
    compile_items(alloc, flat, types, &mut names, next, items)
}

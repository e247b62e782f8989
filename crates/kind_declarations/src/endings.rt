//! Implicit fields that are never known.
ghost use Rattle.std.specs.Prelude.{◌≡◌, ◌≤◌, ◌<◌, ◌+◌, ◌++◌, if◌then◌else◌, map, IfOk, OnOk};
ghost use Rattle.tlb_syntax.specs.Limits.{AreExprs, AreItems, IsExpr, IsItem, IsType, item_count};
ghost use Rattle.tlb_syntax.specs.View.{expr, exprs, field_type};
ghost use Rattle.tlb_syntax.specs.View as view_spec;
ghost use Rattle.kind_terms.specs.Scopes.{made_known};
ghost use Rattle.kind_declarations.specs.EndingViews.{endings_at, position_at};
ghost use Rattle.kind_declarations.specs.Faults.{Judges};
ghost use Rattle.kind_declarations.specs.Nodes.{arg_endings, ending_at, expr_endings, item_endings, record_endings};
ghost use Rattle.kind_declarations.specs.Nodes.{type_endings};
ghost use Rattle.kind_terms.specs.Positions.{first_position, is_unnamed as is_unnamed_item};
ghost use Rattle.kind_terms.specs.Views.{part_by};

use crate::error::{Cause, Fault};
use bit_slice::Name;
use kind_terms::{Shown, Types, add_known, is_among, is_unnamed, show_item};
use sqlite_items::Items;
use std::alloc::{AllocError, Global};
use tlb_syntax::{Expr, FieldType, Item};

// What the items of a record make known, to which these inputs belong.
fn known_at_end<'a>(
    alloc: Global,
    types: &Types<'_>,
    inputs: &[&Name],
    items: &'a [Item],
) -> Result<Items<&'a Name>, AllocError>
    ensures { IfOk result
        (λ known. map (λ n. n.now) known
        ≡ made_known (map view_spec.constructor types.now) (map (λ n. n.now) inputs.now) (view_spec.items items.now)) }
{
    let mut known = Items::new(alloc);
    for item in items {
        add_known(types, inputs, item, &mut known)?;
    }
    Ok(known)
}

// The number of unnamed fields before the next item.
fn unnamed_after(item: &Item, unnamed: u32) -> u32
    requires { unnamed < 255 }
    ensures { result ≡ (if is_unnamed_item (view_spec.item item.now) then unnamed + 1 else unnamed) }
{
    if is_unnamed(item) {
        unnamed + 1
    } else {
        unnamed
    }
}

/// The first implicit field of a record, and of the records in it, that is neither one of the inputs that belong to the
/// record nor known by another item of it, is refused; the path leads to it then.
#[cycle(ending)]
pub fn judge_endings<'a>(
    alloc: Global,
    types: &Types<'a>,
    items: &'a [Item],
    inputs: &[&'a Name],
    path: &mut Items<Shown<'a>>,
) -> Result<(), Fault>
    requires bounded { item_count (view_spec.items items.now) ≤ 255 }
    requires sized { AreItems (view_spec.items items.now) }
    ensures judged { Judges
        (record_endings (view_spec.items items.now) (map view_spec.constructor types.now)
        (first_position (map part_by path.old))
        (made_known (map view_spec.constructor types.now) (map (λ n. n.now) inputs.now) (view_spec.items items.now)))
        (map part_by path.new) result }
    ensures kept { OnOk result (path.new ≡ path.old) }
{
    let known = known_at_end(alloc, types, inputs, items)?;
    judge_items(alloc, types, items, known.as_slice(), path)
}

// The items of a record at whose end these variables are known.
#[cycle(ending)]
fn judge_items<'a>(
    alloc: Global,
    types: &Types<'a>,
    items: &'a [Item],
    known: &[&'a Name],
    path: &mut Items<Shown<'a>>,
) -> Result<(), Fault>
    requires bounded { item_count (view_spec.items items.now) ≤ 255 }
    requires sized { AreItems (view_spec.items items.now) }
    ensures judged { Judges
        (record_endings (view_spec.items items.now) (map view_spec.constructor types.now)
        (first_position (map part_by path.old))
        (map (λ n. n.now) known.now)) (map part_by path.new) result }
    ensures kept { OnOk result (path.new ≡ path.old) }
{
    let mut place: u32 = 1;
    let mut unnamed: u32 = 0;
    for item in items {
        judge_item(alloc, types, item, place, unnamed, known, path)?;
        place += 1;
        unnamed = unnamed_after(item, unnamed);
    }
    Ok(())
}

// An item at this place of its record, after so many unnamed fields.
#[cycle(ending)]
fn judge_item<'a>(
    alloc: Global,
    types: &Types<'a>,
    item: &'a Item,
    place: u32,
    unnamed: u32,
    known: &[&'a Name],
    path: &mut Items<Shown<'a>>,
) -> Result<(), Fault>
    requires { IsItem (view_spec.item item.now) }
    ensures judged { Judges
        (endings_at (view_spec.item item.now) (map view_spec.constructor types.now)
        (position_at (map part_by path.old) place unnamed) (map (λ n. n.now) known.now)) (map part_by path.new) result }
    ensures kept { OnOk result (path.new ≡ path.old) }
{
    path.push(show_item(item, place, unnamed))?;
    judge_ending(alloc, types, item, known, path)?;
    path.pop();
    Ok(())
}

// The item to which the path leads.
#[cycle(ending)]
fn judge_ending<'a>(
    alloc: Global,
    types: &Types<'a>,
    item: &'a Item,
    known: &[&'a Name],
    path: &mut Items<Shown<'a>>,
) -> Result<(), Fault>
    requires { IsItem (view_spec.item item.now) }
    ensures judged { Judges
        (ending_at (map part_by path.old) (map (λ n. n.now) known.now) (view_spec.item item.now)
        ++ item_endings (view_spec.item item.now) (map view_spec.constructor types.now) (map part_by path.old))
        (map part_by path.new) result }
    ensures kept { OnOk result (path.new ≡ path.old) }
{
    match item {
        Item::Implicit(name, _) => {
            if is_among(known, name) {
                Ok(())
            } else {
                Err(Fault::Refused(Cause::Undetermined))
            }
        }
        Item::Check(_, _, _) => Ok(()),
        Item::Explicit(_, t) => endings_in_type(alloc, types, t, path),
    }
}

// Those of the records in the type of a field.
#[cycle(ending)]
fn endings_in_type<'a>(
    alloc: Global,
    types: &Types<'a>,
    t: &'a FieldType,
    path: &mut Items<Shown<'a>>,
) -> Result<(), Fault>
    requires { IsType (field_type t.now) }
    ensures judged { Judges
        (type_endings (field_type t.now) (map view_spec.constructor types.now) (map part_by path.old))
        (map part_by path.new) result }
    ensures kept { OnOk result (path.new ≡ path.old) }
{
    match t {
        FieldType::Plain(e) => endings_in(alloc, types, e, path),
        FieldType::If(condition, e) => {
            endings_in(alloc, types, condition, path)?;
            endings_in(alloc, types, e, path)
        }
        FieldType::IfBit(condition, _, e) => {
            endings_in(alloc, types, condition, path)?;
            endings_in(alloc, types, e, path)
        }
    }
}

// Those of the records in an expression.
#[cycle(ending)]
fn endings_in<'a>(
    alloc: Global,
    types: &Types<'a>,
    e: &'a Expr,
    path: &mut Items<Shown<'a>>,
) -> Result<(), Fault>
    requires { IsExpr (expr e.now) }
    ensures judged { Judges (expr_endings (expr e.now) (map view_spec.constructor types.now) (map part_by path.old))
        (map part_by path.new) result }
    ensures kept { OnOk result (path.new ≡ path.old) }
{
    match e {
        Expr::Lit(_) | Expr::Nat32 => Ok(()),
        Expr::Named(_, args) | Expr::Bits(args) | Expr::Below(args) | Expr::UpTo(args) =>
            endings_in_all(alloc, types, args.as_slice(), path),
        Expr::Sum(first, second, more) => {
            endings_in(alloc, types, first.get(), path)?;
            endings_in(alloc, types, second.get(), path)?;
            endings_in_all(alloc, types, more.as_slice(), path)
        }
        Expr::Star(left, right) => {
            endings_in(alloc, types, left.get(), path)?;
            endings_in(alloc, types, right.get(), path)
        }
        Expr::Out(inner) | Expr::Ref(inner) => endings_in(alloc, types, inner.get(), path),
        Expr::Group(items) => judge_endings(alloc, types, items.as_slice(), &[], path),
    }
}

// Those of the records in expressions.
#[cycle(ending)]
fn endings_in_all<'a>(
    alloc: Global,
    types: &Types<'a>,
    es: &'a [Expr],
    path: &mut Items<Shown<'a>>,
) -> Result<(), Fault>
    requires { AreExprs (exprs es.now) }
    ensures judged { Judges (arg_endings (exprs es.now) (map view_spec.constructor types.now) (map part_by path.old))
        (map part_by path.new) result }
    ensures kept { OnOk result (path.new ≡ path.old) }
{
    for e in es {
        endings_in(alloc, types, e, path)?;
    }
    Ok(())
}

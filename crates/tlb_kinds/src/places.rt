//! Where a refusal stands.
ghost use Rattle.std.specs.Prelude.{◌≡◌, ◌+◌, ◌++◌, ◌<◌, ◌≤◌, IfOk, [], codes, decimal, length, map, option_map};
ghost use Rattle.tlb_syntax.specs.View.{constructor as constructor_view, items as items_view};
ghost use Rattle.kind_terms.specs.Dictionaries.{of_type};
ghost use Rattle.kind_terms.specs.Positions.{unnamed_name as name_of_unnamed, first_position};
ghost use Rattle.kind_terms.specs.Views.{part_by};
ghost use Rattle.tlb_kinds.specs.Spots.{heading, item_spot as spot_of_item, parts_by, path_to, shown_name};
ghost use Rattle.tlb_kinds.specs.Spots.{spot as spot_of};

use crate::spot::Spot;
use bit_slice::Name;
use field_path::{FieldPath, Part};
use kind_terms::{Shown, is_unnamed, show_item};
use sqlite_items::Items;
use std::alloc::Global;
use tlb_memory::NoMemory;
use tlb_syntax::{Constructor, Item};

// `_` and a number from 1 on.
#[tactic(auto, using(crate::proofs::UnnamedNames::is_numbered_name))]
fn numbered(alloc: Global, number: u64) -> Result<Name, NoMemory>
    requires { 0 < number }
    ensures { IfOk result (λ n. n ≡ codes "_" ++ decimal number) }
{
    let text = format!(in alloc; "_{number}")?;
    Name::new(alloc, text.as_bytes())
}

// The name of a unnamed field that so many unnamed fields come before.
fn unnamed_name(alloc: Global, before: u32) -> Result<Name, NoMemory>
    ensures { IfOk result (λ n. n ≡ name_of_unnamed (before + 1)) }
{
    if before == 0 {
        Name::new(alloc, b"_")
    } else {
        numbered(alloc, u64::from(before) + 1)
    }
}

fn part_of(alloc: Global, shown: &Shown<'_>) -> Result<Part, NoMemory>
    ensures { IfOk result (λ part. part ≡ part_by shown.now) }
{
    match shown {
        Shown::Named(name) => Ok(Part::Named(name.copy(alloc)?)),
        Shown::Unnamed(before) => Ok(Part::Named(unnamed_name(alloc, *before)?)),
        Shown::Check(place) => Ok(Part::Check(*place)),
        Shown::Result => Ok(Part::Result),
    }
}

fn path_of(alloc: Global, path: &[Shown<'_>]) -> Result<FieldPath, NoMemory>
    ensures { IfOk result (λ found. found.parts ≡ map part_by path.now) }
{
    let mut parts = Items::new(alloc);
    for shown in path {
        parts.push(part_of(alloc, shown)?)?;
    }
    Ok(FieldPath { parts })
}

// The place of a declaration after these among those of its type, from 1.
fn number_after(before: &[Constructor], type_name: &Name) -> u32
    requires { length before.now ≤ 4096 }
    ensures { result ≡ length (of_type (map constructor_view before.now) type_name.now) + 1 }
{
    let mut number: u32 = 1;
    for constructor in before {
        if constructor.result.same(type_name) {
            number += 1;
        }
    }
    number
}

fn constructor_name(alloc: Global, name: Option<&Name>, number: u32) -> Result<Name, NoMemory>
    requires { 0 < number }
    ensures { IfOk result (λ found. found ≡ shown_name (option_map (λ x. x.now) name.entry) number) }
{
    match name {
        Some(name) => name.copy(alloc),
        None => numbered(alloc, u64::from(number)),
    }
}

/// The place of an item of a declaration after these.
pub fn spot(
    alloc: Global,
    before: &[Constructor],
    constructor: &Constructor,
    path: &[Shown<'_>],
) -> Result<Spot, NoMemory>
    requires { length before.now ≤ 4096 }
    ensures { IfOk result
        (λ found. found
        ≡ spot_of (heading (map constructor_view before.now) (constructor_view constructor.now))
        (map part_by path.now)) }
{
    let number = number_after(before, &constructor.result);
    Ok(Spot {
        type_name: constructor.result.copy(alloc)?,
        constructor: constructor_name(alloc, constructor.name.as_ref(), number)?,
        number,
        item: path_of(alloc, path)?,
    })
}

// How the item after so many others of a record is shown.
fn shown_at(items: &[Item], at: usize) -> Option<Shown<'_>>
    requires { length items.now ≤ 255 }
    ensures { parts_by result ≡ path_to (items_view items.now) (first_position []) at }
{
    let mut unnamed: u32 = 0;
    for (index, item) in items.iter().enumerate() {
        if index == at {
            return Some(show_item(item, index as u32 + 1, unnamed));
        }
        if is_unnamed(item) {
            unnamed += 1;
        }
    }
    None
}

/// The place of the item after so many others of a declaration after these.
pub fn item_spot(
    alloc: Global,
    before: &[Constructor],
    constructor: &Constructor,
    at: usize,
) -> Result<Spot, NoMemory>
    requires bounded { length before.now ≤ 4096 }
    requires items { length constructor.now.items ≤ 255 }
    ensures { IfOk result
        (λ found. found
        ≡ spot_of_item (heading (map constructor_view before.now) (constructor_view constructor.now)) at) }
{
    match shown_at(constructor.items.as_slice(), at) {
        Some(shown) => spot(alloc, before, constructor, &[shown]),
        None => spot(alloc, before, constructor, &[]),
    }
}

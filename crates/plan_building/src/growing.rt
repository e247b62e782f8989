//! A content that grows.
ghost use Rattle.std.specs.Prelude.{◌≡◌, ◌+◌, ◌≤◌, ◌<◌, ◌^◌, ◌&&◌, ◌||◌, ◌++◌, ◌∷◌, [], ℕ, Bool, IfOk, OnOk, false, length, nat_eq, nat_lt, not, true};
ghost use Rattle.bit_slice.specs.Bits.{spelled};
ghost use Rattle.building.specs.Growing as growing;
ghost use Rattle.building.specs.Growing.{Grown};
ghost use Rattle.building.specs.PlainBuilder as plain;
ghost use Rattle.cell_nodes.specs.Constructed.{pruned_of};
ghost use Rattle.cell_nodes.specs.HeldLaws.{AreBelow};
ghost use Rattle.cell_nodes.specs.Tree.{deepest};
ghost use Rattle.hashmap_tree.specs.Entries.{Slice, cell_of};
ghost use Rattle.hashmap_tree.specs.Plants.{held_of};
ghost use Rattle.plan_reading.specs.Stops.{Gives};
ghost use Rattle.spelling.specs.Places.{Spot};
ghost use Rattle.spelling.specs.Slices.{only_bits, only_ref};
ghost use Rattle.plan_building.specs.View.{grown, laid, made};

use crate::outputs::Outputs;
use crate::ranges::is_hash;
use bit_slice::BitSlice;
use cell_nodes::{Cell, CellBuilder, Hidden, Mode, RefSlice};
use plan_reading::{StopError, stop_here};
use spelling::Cause;
use std::alloc::Global;
use tlb_memory::NoMemory;
use typed_value::RestPart;

/// What a cell holds so far, and whether a value was put that takes all that is left: nothing may follow it.
#[derive(Drop)]
pub struct Growing {
    pub cell: CellBuilder,
    pub shut: bool,
}

impl Growing {
    /// No content yet.
    pub fn new(alloc: Global) -> Result<Growing, NoMemory>
        ensures { IfOk result (λ b. grown b ≡ growing.empty) }
    {
        let cell = CellBuilder::new(alloc)?;
        Ok(Growing { cell, shut: false })
    }

    /// How many bits and references it holds.
    pub fn size(&self) -> (u32, u32)
        ensures { result ≡ (length (grown self.now).held.bits, length (grown self.now).held.refs) }
    {
        let content = self.cell.content();
        (content.bits.len(), content.refs.len())
    }

    /// The ordinary cell.
    pub fn finish(self, alloc: Global) -> Result<Cell, NoMemory>
        ensures { IfOk result (λ c. c ≡ cell_of (grown self).held) }
    {
        self.cell.finish(alloc)
    }
}

/// Whether it holds more bits or references than before.
pub fn grew(before: (u32, u32), b: &Growing) -> bool
    ensures { (x : Grown) → before ≡ (length x.held.bits, length x.held.refs) → result ≡ plain.grew x (grown b.now) }
{
    let (bits, refs) = b.size();
    before.0 < bits || before.1 < refs
}

// Whether something would follow a value that takes all that is left.
fn is_shut(b: &Growing, bits: u32, refs: usize) -> bool
    ensures { result ≡ (b.now.shut && not (nat_eq bits 0 && nat_eq refs 0)) }
{
    b.shut && !(bits == 0 && refs == 0)
}

// Whether one cell can't hold so many bits and references more.
fn is_over(b: &Growing, bits: u32, refs: usize) -> bool
    ensures { result ≡ (nat_lt 1023 (length b.now.cell.bits + bits) || nat_lt 4 (length b.now.cell.refs + refs)) }
{
    b.cell.within();
    let (held_bits, held_refs) = b.size();
    bits > 1023 - held_bits || refs > 4 - held_refs as usize
}

// Whether an item of so many bits and references may be put, of which a reference is too deep or none.
fn admit(alloc: Global, b: &Growing, bits: u32, refs: usize, deep: bool) -> Result<(), StopError>
    ensures put { (h : Spot) (x : Slice) (last : Bool) → bits ≡ length x.bits → refs ≡ length x.refs
        → Gives h (λ _. laid x last (grown b.now)) result (plain.put h x deep last (grown b.now)) }
    ensures bits { OnOk result (length b.now.cell.bits + bits ≤ 1023) }
    ensures refs { OnOk result (length b.now.cell.refs + refs ≤ 4) }
    ensures low { OnOk result (deep ≡ false) }
{
    if is_shut(b, bits, refs) {
        return Err(stop_here(alloc, Cause::AfterRest));
    }
    if is_over(b, bits, refs) {
        return Err(stop_here(alloc, Cause::Full));
    }
    if deep {
        return Err(stop_here(alloc, Cause::TooDeep));
    }
    Ok(())
}

// Adds bits that there is room for.
fn add_bits(bits: BitSlice<'_>, cell: &mut CellBuilder)
    requires { length cell.old.bits + length bits ≤ 1023 }
    ensures bits { cell.new.bits ≡ cell.old.bits ++ bits.entry }
    ensures refs { cell.new.refs ≡ cell.old.refs }
{
    let _ = cell.push_bits(bits);
}

// Adds the lowest `width` bits of a number, for which there is room.
fn add_number(number: u128, width: u32, cell: &mut CellBuilder)
    requires room { length cell.old.bits + width ≤ 1023 }
    requires wide { width ≤ 128 }
    requires fits { number < 2 ^ width }
    ensures bits { cell.new.bits ≡ cell.old.bits ++ spelled width number }
    ensures refs { cell.new.refs ≡ cell.old.refs }
{
    let _ = cell.push_number(number, width);
}

// Adds a reference, for which there is room.
fn add_ref(child: Cell, cell: &mut CellBuilder)
    requires room { length cell.old.refs < 4 }
    requires below { deepest child < 1024 }
    ensures bits { cell.new.bits ≡ cell.old.bits }
    ensures refs { cell.new.refs ≡ cell.old.refs ++ child ∷ [] }
{
    let _ = cell.push_ref(child);
}

// Adds references that there is room for.
fn add_refs(refs: &[Cell], cell: &mut CellBuilder) -> Result<(), NoMemory>
    requires room { length cell.old.refs + length refs.now ≤ 4 }
    requires below { AreBelow refs.now }
    ensures bits { OnOk result (cell.new.bits ≡ cell.old.bits) }
    ensures refs { OnOk result (cell.new.refs ≡ cell.old.refs ++ refs.now) }
{
    let mut left = refs;
    while let Some((child, more)) = left.split_first() {
        add_ref(child.share()?, cell);
        left = more;
    }
    Ok(())
}

// Adds references that there is room for.
fn add_held(refs: RefSlice<'_>, cell: &mut CellBuilder) -> Result<(), NoMemory>
    requires room { length cell.old.refs + length refs ≤ 4 }
    requires below { AreBelow refs }
    ensures bits { OnOk result (cell.new.bits ≡ cell.old.bits) }
    ensures refs { OnOk result (cell.new.refs ≡ cell.old.refs ++ refs.entry) }
{
    let mut left = refs;
    while let Some((child, more)) = left.first() {
        add_ref(child.share()?, cell);
        left = more;
    }
    Ok(())
}

/// Adds bits.
pub fn put_bits(alloc: Global, bits: BitSlice<'_>, b: &mut Growing) -> Result<(), StopError>
    ensures { (h : Spot) → Gives h (λ _. grown b.new) result
        (plain.put h (only_bits bits.entry) false false (grown b.old)) }
{
    admit(alloc, b, bits.len(), 0, false)?;
    add_bits(bits, &mut b.cell);
    Ok(())
}

/// Adds the lowest `width` bits of a number.
pub fn put_number(alloc: Global, number: u128, width: u32, b: &mut Growing) -> Result<(), StopError>
    requires wide { width ≤ 128 }
    requires fits { number < 2 ^ width }
    ensures { (h : Spot) → Gives h (λ _. grown b.new) result
        (plain.put h (only_bits (spelled width number)) false false (grown b.old)) }
{
    admit(alloc, b, width, 0, false)?;
    add_number(number, width, &mut b.cell);
    Ok(())
}

// Whether the cell can't stand below another.
fn is_deep(cell: &Cell) -> bool
    ensures is { result ≡ growing.is_deep cell.now }
    ensures below { result ≡ false → deepest cell.now < 1024 }
{
    cell.good();
    cell.depth(0)
        .max(cell.depth(1))
        .max(cell.depth(2))
        .max(cell.depth(3))
        > 1023
}

// Whether one of the cells can't stand below another.
fn some_deep(cells: &[Cell]) -> bool
    ensures is { result ≡ growing.some_deep cells.now }
    ensures below { result ≡ false → AreBelow cells.now }
{
    for cell in cells {
        if is_deep(cell) {
            return true;
        }
    }
    false
}

/// Adds a reference.
pub fn put_ref(alloc: Global, cell: Cell, b: &mut Growing) -> Result<(), StopError>
    ensures { (h : Spot) → Gives h (λ _. grown b.new) result
        (plain.put h (only_ref cell) (growing.is_deep cell) false (grown b.old)) }
{
    let deep = is_deep(&cell);
    admit(alloc, b, 0, 1, deep)?;
    add_ref(cell, &mut b.cell);
    Ok(())
}

// The pruned branch of a hidden part that can stand below a cell.
fn pruned(alloc: Global, hidden: Hidden) -> Result<Cell, NoMemory>
    requires { hidden.depth ≤ 1023 }
    ensures is { IfOk result (λ c. c ≡ pruned_of hidden.hash hidden.depth) }
    ensures below { IfOk result (λ c. deepest c < 1024) }
{
    is_hash(&hidden);
    match Cell::pruned(alloc, &hidden.hash, hidden.depth) {
        Ok(cell) => Ok(cell),
        Err(_) => Err(NoMemory),
    }
}

// Adds the pruned branch of a hidden part.
fn put_pruned(alloc: Global, hidden: Hidden, b: &mut Growing) -> Result<(), StopError>
    ensures { (h : Spot) → Gives h (λ _. grown b.new) result
        (plain.put h (only_ref (pruned_of hidden.hash hidden.depth)) (nat_lt 1023 hidden.depth) false (grown b.old)) }
{
    let deep = hidden.depth > 1023;
    admit(alloc, b, 0, 1, deep)?;
    add_ref(pruned(alloc, hidden)?, &mut b.cell);
    Ok(())
}

/// Adds the pruned branch of a hidden part, in mode Partial alone.
pub fn put_hidden(
    alloc: Global,
    mode: Mode,
    hidden: Hidden,
    b: &mut Growing,
) -> Result<Outputs, StopError>
    ensures { (h : Spot) → Gives h (made b.new) result (plain.make_hidden mode h hidden (grown b.old)) }
{
    match mode {
        Mode::Partial => {
            put_pruned(alloc, hidden, b)?;
            Ok(Outputs::Empty)
        }
        Mode::Whole | Mode::Lax => Err(stop_here(alloc, Cause::Shape)),
    }
}

/// Adds all that a rest has. Nothing may follow it.
pub fn put_rest(alloc: Global, rest: &RestPart, b: &mut Growing) -> Result<Outputs, StopError>
    ensures { (h : Spot) → Gives h (made b.new) result
        (plain.put_alone h (record { bits = rest.now.bits; refs = rest.now.refs }) (growing.some_deep rest.now.refs)
        true (grown b.old)) }
{
    let bits = rest.bits.slice();
    let refs = rest.refs.as_slice();
    let deep = some_deep(refs);
    admit(alloc, b, bits.len(), refs.len(), deep)?;
    add_bits(bits, &mut b.cell);
    add_refs(refs, &mut b.cell)?;
    b.shut = true;
    Ok(Outputs::Empty)
}

fn either(a: bool, b: bool) -> bool
    ensures { result ≡ (a || b) }
{
    a || b
}

/// Adds a content, whose references are not too deep. Where it is the last, nothing may follow it.
pub(crate) fn put_content(
    alloc: Global,
    content: &CellBuilder,
    last: bool,
    b: &mut Growing,
) -> Result<Outputs, StopError>
    ensures { (h : Spot) → Gives h (made b.new) result
        (plain.put_alone h (held_of content.now) false last (grown b.old)) }
{
    content.within();
    let held = content.content();
    admit(alloc, b, held.bits.len(), held.refs.len() as usize, false)?;
    add_bits(held.bits, &mut b.cell);
    add_held(held.refs, &mut b.cell)?;
    b.shut = either(b.shut, last);
    Ok(Outputs::Empty)
}

/// Adds the bit 0.
pub(crate) fn put_empty(alloc: Global, b: &mut Growing) -> Result<Outputs, StopError>
    ensures { (h : Spot) → Gives h (made b.new) result (plain.put_bits h (0 ∷ []) [] (grown b.old)) }
{
    put_number(alloc, 0, 1, b)?;
    Ok(Outputs::Empty)
}

/// Adds the bit 1 and a reference to this cell.
pub(crate) fn put_root(alloc: Global, cell: Cell, b: &mut Growing) -> Result<Outputs, StopError>
    ensures { (h : Spot) → Gives h (made b.new) result
        (plain.put_root h cell (growing.is_deep cell) (grown b.old)) }
{
    let deep = is_deep(&cell);
    admit(alloc, b, 1, 1, deep)?;
    add_number(1, 1, &mut b.cell);
    add_ref(cell, &mut b.cell);
    Ok(Outputs::Empty)
}

/// Adds the bit 1 and the pruned branch of a hidden part.
pub(crate) fn put_hidden_root(
    alloc: Global,
    hidden: Hidden,
    b: &mut Growing,
) -> Result<Outputs, StopError>
    ensures { (h : Spot) → Gives h (made b.new) result
        (plain.put_root h (pruned_of hidden.hash hidden.depth) (nat_lt 1023 hidden.depth) (grown b.old)) }
{
    let deep = hidden.depth > 1023;
    admit(alloc, b, 1, 1, deep)?;
    let cell = pruned(alloc, hidden)?;
    add_number(1, 1, &mut b.cell);
    add_ref(cell, &mut b.cell);
    Ok(Outputs::Empty)
}

//! The mask, the depths and the hashes of a new cell.
ghost use Rattle.std.specs.Prelude.{◌≡◌, ◌≤◌, ◌<◌, ◌+◌, ◌-◌, ◌%◌, ◌^◌, ◌==◌, ◌++◌, ◌∷◌, [], length, map};
ghost use Rattle.std.specs.Prelude.{IfOk, IsTrue, OnOk};
ghost use Rattle.std.specs.Int.{bit_at};
ghost use Rattle.cell_nodes.specs.declared.tree.Kind.TheVariants.{Pruned as PrunedKind};
ghost use Rattle.cell_nodes.specs.Layout.{has_layout, stored_mask};
ghost use Rattle.cell_nodes.specs.Levels.{levels, levels_in};
ghost use Rattle.cell_nodes.specs.Tree.{depth_of, hash_of, hash_with, is_exotic, mark_at, marks, marks_of, mask_of};
ghost use Rattle.cell_nodes.specs.Tree.{own_hash, pruned_depth, pruned_hash, shift};

use crate::cell::Cell;
use crate::children::{depth_over, marks_at, union_of};
use crate::layouts::{set_bits, stored_depth, stored_hash, stored_mask};
use crate::tree::Kind;
use bit_slice::BitSlice;
use cell_hash::{ChildMark, Content, descriptor, hash_parts};
use std::alloc::{AllocError, Global};
use tlb_memory::NoMemory;

/// How many levels above its own a cell of that kind takes its children.
fn shift(kind: Kind) -> u32
    ensures value { result ≡ shift kind }
    ensures bound { result ≤ 1 }
{
    match kind {
        Kind::Ordinary => 0,
        Kind::Pruned => 0,
        Kind::Library => 0,
        Kind::Proof => 1,
        Kind::Update => 1,
    }
}

fn is_exotic(kind: Kind) -> bool
    ensures { result ≡ is_exotic kind }
{
    match kind {
        Kind::Ordinary => false,
        Kind::Pruned => true,
        Kind::Library => true,
        Kind::Proof => true,
        Kind::Update => true,
    }
}

/// Whether the mask has the level after level `i`.
pub(crate) fn has_next(mask: u8, i: u32) -> bool
    requires { i ≤ 2 }
    ensures { result ≡ (bit_at mask i == 1) }
{
    (mask >> i) % 2 == 1
}

/// The mask. A cell that takes its children a level up has no level 3.
pub(crate) fn node_mask(kind: Kind, bits: BitSlice<'_>, children: &[Cell]) -> u8
    requires { IsTrue (has_layout kind bits (length children.now)) }
    ensures value { result ≡ mask_of kind bits.entry (map marks children.now) }
    ensures bound { result < 2 ^ (3 - shift kind) }
{
    match kind {
        Kind::Ordinary => union_of(children),
        Kind::Pruned => stored_mask(&bits),
        Kind::Library => 0,
        Kind::Proof => union_of(children) / 2,
        Kind::Update => union_of(children) / 2,
    }
}

/// The depth of a pruned branch at that level.
fn pruned_depth(bits: &BitSlice<'_>, level: u32) -> u16
    requires level { level ≤ 3 }
    requires layout { IsTrue (has_layout PrunedKind bits.now 0) }
    ensures { result ≡ pruned_depth bits.now level }
{
    let mask = stored_mask(bits);
    let j = set_bits(level, mask);
    if j < set_bits(3, mask) {
        stored_depth(bits, j)
    } else {
        0
    }
}

/// The depth at level 0.
fn lowest_depth(kind: Kind, bits: &BitSlice<'_>, children: &[Cell]) -> u16
    requires layout { IsTrue (has_layout kind bits.now (length children.now)) }
    ensures { result ≡ depth_of kind bits.now (map marks children.now) 0 }
{
    if kind == Kind::Pruned {
        return pruned_depth(bits, 0);
    }
    depth_over(children, shift(kind))
}

/// The depth at the level after level `i`, which the mask has.
fn depth_after(kind: Kind, bits: &BitSlice<'_>, i: u32, children: &[Cell]) -> u16
    requires layout { IsTrue (has_layout kind bits.now (length children.now)) }
    requires level { i + 1 + shift kind ≤ 3 }
    requires set { bit_at (mask_of kind bits.now (map marks children.now)) i ≡ 1 }
    ensures { result ≡ depth_of kind bits.now (map marks children.now) (i + 1) }
{
    if kind == Kind::Pruned {
        return pruned_depth(bits, i + 1);
    }
    depth_over(children, i + 1 + shift(kind))
}

/// The depths at all levels.
pub(crate) fn node_depths(kind: Kind, bits: BitSlice<'_>, mask: u8, children: &[Cell]) -> [u16; 4]
    requires mask { mask ≡ mask_of kind bits (map marks children.now) }
    requires low { mask < 2 ^ (3 - shift kind) }
    requires layout { IsTrue (has_layout kind bits (length children.now)) }
    ensures { result ≡ map (depth_of kind bits.entry (map marks children.now)) levels }
{
    let mut depths = [lowest_depth(kind, &bits, children); 4];
    'levels: for i in 0..3u32 {
        let before = depths[i as usize];
        depths[i as usize + 1] = if has_next(mask, i) {
            depth_after(kind, &bits, i, children)
        } else {
            before
        };
    }
    depths
}

/// The hash of one representation.
fn hash_with(
    alloc: Global,
    kind: Kind,
    mask: u8,
    count: u32,
    content: Content<'_>,
    level: u32,
    children: &[Cell],
) -> Result<[u8; 32], NoMemory>
    requires mask { mask ≤ 7 }
    requires short { count ≤ 1023 }
    requires level { level + shift kind ≤ 3 }
    requires few { length children.now ≤ 4 }
    ensures { IfOk result (λ h. h ≡ hash_with kind mask count content.entry level (map marks children.now)) }
{
    let marks = marks_at(alloc, children, level + shift(kind))?;
    let first = descriptor(children.len() as u32, is_exotic(kind), mask, count);
    Ok(hash_parts(first, content, marks.as_slice()))
}

/// The hash of a pruned branch's own representation.
fn own_hash(bits: &BitSlice<'_>, mask: u8) -> [u8; 32]
    requires mask { mask ≡ stored_mask bits.now }
    requires low { mask ≤ 7 }
    ensures { result ≡ own_hash bits.now }
{
    let first = descriptor(0, true, mask, bits.len());
    hash_parts(first, Content::Data(bits.again()), &[])
}

/// The hash of a pruned branch at that level.
fn pruned_hash(bits: &BitSlice<'_>, level: u32) -> [u8; 32]
    requires level { level ≤ 3 }
    requires layout { IsTrue (has_layout PrunedKind bits.now 0) }
    ensures { result ≡ pruned_hash bits.now level }
{
    let mask = stored_mask(bits);
    let j = set_bits(level, mask);
    if j < set_bits(3, mask) {
        stored_hash(bits, j)
    } else {
        own_hash(bits, mask)
    }
}

/// The hash at level 0.
fn lowest_hash(
    alloc: Global,
    kind: Kind,
    bits: &BitSlice<'_>,
    children: &[Cell],
) -> Result<[u8; 32], NoMemory>
    requires few { length children.now ≤ 4 }
    requires layout { IsTrue (has_layout kind bits.now (length children.now)) }
    ensures { IfOk result (λ h. h ≡ hash_of kind bits.now (map marks children.now) 0) }
{
    if kind == Kind::Pruned {
        return Ok(pruned_hash(bits, 0));
    }
    let content = Content::Data(bits.again());
    hash_with(alloc, kind, 0, bits.len(), content, 0, children)
}

/// The lowest bits of a mask.
pub(crate) fn low_bits(mask: u8, count: u32) -> u8
    requires { count ≤ 3 }
    ensures { result ≡ mask % 2 ^ count }
{
    mask % (1u8 << count)
}

/// The hash at the level after level `i`, which the mask has. `before` is the hash at level `i`.
fn hash_after(
    alloc: Global,
    kind: Kind,
    bits: &BitSlice<'_>,
    mask: u8,
    i: u32,
    before: [u8; 32],
    children: &[Cell],
) -> Result<[u8; 32], NoMemory>
    requires few { length children.now ≤ 4 }
    requires layout { IsTrue (has_layout kind bits.now (length children.now)) }
    requires mask { mask ≡ mask_of kind bits.now (map marks children.now) }
    requires low { mask ≤ 7 }
    requires level { i + 1 + shift kind ≤ 3 }
    requires set { bit_at mask i ≡ 1 }
    requires before { before ≡ hash_of kind bits.now (map marks children.now) i }
    ensures { IfOk result (λ h. h ≡ hash_of kind bits.now (map marks children.now) (i + 1)) }
{
    if kind == Kind::Pruned {
        return Ok(pruned_hash(bits, i + 1));
    }
    let low = low_bits(mask, i + 1);
    let content = Content::Previous(before);
    hash_with(alloc, kind, low, bits.len(), content, i + 1, children)
}

pub(crate) fn push_mark(marks: &mut Vec<ChildMark>, mark: ChildMark) -> Result<(), NoMemory>
    ensures { OnOk result (marks.new.items ≡ marks.old.items ++ mark ∷ []) }
{
    marks.push(mark).map_err(AllocError::from)?;
    Ok(())
}

/// The depths and the hashes at the levels that the mask has: at level 0, and at those above it.
pub(crate) fn node_marks(
    alloc: Global,
    kind: Kind,
    bits: BitSlice<'_>,
    mask: u8,
    depths: [u16; 4],
    children: &[Cell],
) -> Result<(ChildMark, Vec<ChildMark>), NoMemory>
    requires mask { mask ≡ mask_of kind bits (map marks children.now) }
    requires low { mask < 2 ^ (3 - shift kind) }
    requires depths { depths ≡ map (depth_of kind bits (map marks children.now)) levels }
    requires few { length children.now ≤ 4 }
    requires layout { IsTrue (has_layout kind bits (length children.now)) }
    ensures { IfOk result
        (λ m. m.0 ∷ m.1.items
        ≡ map (λ i. mark_at i (marks_of kind bits.entry (map marks children.now))) (levels_in 3 mask)) }
{
    let mut hash = lowest_hash(alloc, kind, &bits, children)?;
    let lowest = ChildMark {
        depth: depths[0],
        hash,
    };
    let mut above = Vec::new(alloc);
    'levels: for i in 0..3u32 {
        if has_next(mask, i) {
            hash = hash_after(alloc, kind, &bits, mask, i, hash, children)?;
            let depth = depths[i as usize + 1];
            push_mark(&mut above, ChildMark { depth, hash })?;
        }
    }
    Ok((lowest, above))
}

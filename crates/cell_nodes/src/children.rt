//! What a new cell takes from its children.
ghost use Rattle.std.specs.Prelude.{◌≡◌, ◌+◌, ◌≤◌, length, map, IfOk};
ghost use Rattle.cell_nodes.specs.Tree.{capped, depth_over, mark_at, marks, total, unfolded, union_of};
ghost use Rattle.cell_nodes.specs.Good.{AllGood};

use crate::cell::Cell;
use cell_hash::ChildMark;
use smallvec::SmallVec;
use std::alloc::{AllocError, Global};
use tlb_memory::NoMemory;

/// The union of the children's masks.
pub(crate) fn union_of(children: &[Cell]) -> u8
    ensures value { result ≡ union_of (map marks children.now) }
    ensures bound { result ≤ 7 }
{
    let mut found: u8 = 0;
    'children: for child in children {
        found |= child.mask();
    }
    found
}

/// One more than the greatest depth of the children at one level, or 0 without children.
pub(crate) fn depth_over(children: &[Cell], level: u32) -> u16
    requires { level ≤ 3 }
    ensures value { result ≡ depth_over level (map marks children.now) }
    ensures bound { result ≤ 1025 }
{
    let mut found: u16 = 0;
    'children: for child in children {
        found = found.max(child.depth(level) + 1);
    }
    found
}

/// The number of cells of the children's unfolded trees and one more, at most 262,145.
pub(crate) fn unfolded_over(children: &[Cell]) -> u32
    ensures { result ≡ capped (1 + total (map unfolded children.now)) }
{
    let mut found: u32 = 1;
    'children: for child in children {
        found = (found + child.unfolded()).min(262_145);
    }
    found
}

/// What a representation holds of the children at one level.
pub(crate) fn marks_at(
    alloc: Global,
    children: &[Cell],
    level: u32,
) -> Result<SmallVec<ChildMark, 4>, NoMemory>
    requires { level ≤ 3 }
    ensures { IfOk result (λ v. v.items ≡ map (mark_at level) (map marks children.now)) }
{
    let mut marks = SmallVec::new(alloc);
    'children: for child in children {
        marks.push(child.mark(level)).map_err(AllocError::from)?;
    }
    Ok(marks)
}

/// The same cells once more.
pub(crate) fn share_all(alloc: Global, children: &[Cell]) -> Result<Vec<Cell>, NoMemory>
    ensures { IfOk result (λ v. v.items ≡ children.now) }
{
    let mut shared = Vec::new(alloc);
    'children: for child in children {
        shared.push(child.share()?).map_err(AllocError::from)?;
    }
    Ok(shared)
}

/// A law: the trees of these cells are good.
#[tactic(auto, using(crate::specs::GoodParts::good_parts))]
pub(crate) fn all_good(children: &[Cell])
    ensures { AllGood children.now }
{
    match children.split_first() {
        None => {}
        Some((first, others)) => {
            first.good();
            all_good(others);
        }
    }
}

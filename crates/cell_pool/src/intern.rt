//! The cells of a tree, added to a pool.
ghost use Rattle.std.specs.Prelude.{◌≡◌, ◌≤◌, ◌<◌, ◌+◌, ◌^◌, ◌++◌, ◌∷◌, [], length, map, IfOk, OnOk, OnErr};
ghost use Rattle.cell_nodes.specs.Tree.{total, unfolded};
ghost use Rattle.cell_pool.specs.Post.{place};
ghost use Rattle.cell_pool.specs.Listing.{added, added_all, IsPartly, LiesBetween};

use crate::id::NodeId;
use crate::pool::Pool;
use cell_nodes::{Cell, RefSlice};
use std::alloc::AllocError;
use tlb_memory::NoMemory;

/// Adds the distinct subtrees of the cell that have no node yet, and gives the number of its own.
#[tactic(auto, using(crate::specs::GrowthLaws::walks))]
#[cycle(intern)]
pub(crate) fn add(pool: &mut Pool, cell: &Cell) -> Result<NodeId, NoMemory>
    requires small { unfolded cell.now ≤ 262144 }
    requires room { length pool.old + unfolded cell.now < 2 ^ 32 }
    ensures added { OnOk result (pool.new ≡ added pool.old cell.now) }
    ensures number { IfOk result (λ n. n ≡ place pool.new cell.now) }
    ensures partly { OnErr result (IsPartly pool.old pool.new cell.now) }
{
    pool.ordered();
    let mut children = Vec::new(pool.alloc());
    add_all(pool, cell.content().refs, &mut children)?;
    match pool.find(cell, children.as_slice()) {
        Some(found) => Ok(found),
        None => {
            let id = NodeId::new(pool.count());
            pool.push(cell.share()?, children)?;
            Ok(id)
        }
    }
}

/// The same of the cells from the left. Their numbers are put after `numbers`.
#[tactic(auto, using(crate::specs::GrowthLaws::walks))]
#[cycle(intern)]
fn add_all(pool: &mut Pool, refs: RefSlice<'_>, numbers: &mut Vec<NodeId>) -> Result<(), NoMemory>
    requires small { total (map unfolded refs) ≤ 262144 }
    requires room { length pool.old + total (map unfolded refs) < 2 ^ 32 }
    ensures added { OnOk result (pool.new ≡ added_all pool.old refs.entry) }
    ensures numbers { OnOk result (numbers.new.items ≡ numbers.old.items ++ map (place pool.new) refs.entry) }
    ensures partly { OnErr result (LiesBetween pool.old pool.new (added_all pool.old refs.entry)) }
{
    match refs.first() {
        None => Ok(()),
        Some((first, rest)) => {
            let number = add(pool, first)?;
            push_number(numbers, number)?;
            add_all(pool, rest, numbers)
        }
    }
}

pub(crate) fn push_number(numbers: &mut Vec<NodeId>, number: NodeId) -> Result<(), NoMemory>
    ensures { OnOk result (numbers.new.items ≡ numbers.old.items ++ number ∷ []) }
{
    numbers.push(number).map_err(AllocError::from)?;
    Ok(())
}

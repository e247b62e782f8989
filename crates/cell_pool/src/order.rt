//! The order in which a bag lists the nodes below one node.
ghost use Rattle.std.specs.Prelude.{◌≡◌, ◌<◌, length, map, reverse, IfOk, OnOk};
ghost use Rattle.std.specs.List.{All};
ghost use Rattle.cell_pool.specs.Post.{place, post};
ghost use Rattle.cell_pool.specs.Listing.{added, added_all};
ghost use Rattle.cell_pool.specs.Visited.{tree_at, trees_at, IsVisited};

use crate::id::NodeId;
use crate::intern::push_number;
use crate::pool::Pool;
use std::alloc::Global;
use tlb_memory::NoMemory;

/// Visits the node and what is below it, each node after its children, and passes over what was visited already.
#[tactic(auto, using(crate::specs::GrowthLaws::walks))]
#[cycle(visit)]
fn visit(
    pool: &Pool,
    id: NodeId,
    done: &mut [bool],
    numbers: &mut Vec<NodeId>,
) -> Result<(), NoMemory>
    requires there { id < length pool.now }
    requires visited { IsVisited pool.now done.old numbers.old.items }
    ensures visited { OnOk result (IsVisited pool.now done.new numbers.new.items) }
    ensures added { OnOk result
        (trees_at pool.now numbers.new.items
        ≡ added (trees_at pool.now numbers.old.items) (tree_at pool.now id)) }
{
    pool.ordered();
    let place = id.number() as usize;
    if done[place] {
        return Ok(());
    }
    visit_all(pool, pool.get(id).children(), done, numbers)?;
    push_number(numbers, id)?;
    done[place] = true;
    Ok(())
}

/// The same of the nodes from the left.
#[tactic(auto, using(crate::specs::GrowthLaws::walks))]
#[cycle(visit)]
fn visit_all(
    pool: &Pool,
    ids: &[NodeId],
    done: &mut [bool],
    numbers: &mut Vec<NodeId>,
) -> Result<(), NoMemory>
    requires there { All (λ n. n < length pool.now) ids.now }
    requires visited { IsVisited pool.now done.old numbers.old.items }
    ensures visited { OnOk result (IsVisited pool.now done.new numbers.new.items) }
    ensures added { OnOk result
        (trees_at pool.now numbers.new.items
        ≡ added_all (trees_at pool.now numbers.old.items) (trees_at pool.now ids.now)) }
{
    match ids.split_first() {
        None => Ok(()),
        Some((first, rest)) => {
            visit(pool, *first, done, numbers)?;
            visit_all(pool, rest, done, numbers)
        }
    }
}

/// The numbers of the distinct subtrees of the node's tree, the tree's own first.
pub(crate) fn order_of(pool: &Pool, alloc: Global, root: NodeId) -> Result<Vec<NodeId>, NoMemory>
    requires { root < length pool.now }
    ensures numbers { IfOk result (λ v. v.items ≡ map (place pool.now) (reverse (post (tree_at pool.now root)))) }
    ensures meaning { IfOk result (λ v. trees_at pool.now v.items ≡ reverse (post (tree_at pool.now root))) }
    ensures there { IfOk result (λ v. All (λ n. n < length pool.now) v.items) }
{
    pool.ordered();
    let mut done = vec![in alloc; false; pool.count() as usize]?;
    let mut numbers = Vec::new(alloc);
    visit(pool, root, done.as_mut_slice(), &mut numbers)?;
    numbers.as_mut_slice().reverse();
    Ok(numbers)
}

//! The bytes of the bag of a tree.
ghost use Rattle.std.specs.Prelude.{◌≡◌, ◌<◌, ◌++◌, ◌∷◌, [], IfOk, IfSome, OnOk, slice_get, slice_index, length, map};
ghost use Rattle.std.specs.List.{All, flat_map};
ghost use Rattle.bit_slice.specs.Bits.{completed};
ghost use Rattle.cell_nodes.specs.Tree.{is_exotic};
ghost use Rattle.cell_pool.specs.Nodes.{node_tree};
ghost use Rattle.cell_pool.specs.Visited.{tree_at, trees_at};
ghost use Rattle.bag_cells.specs.Bag.{BagHolds};
ghost use Rattle.bag_cells.specs.Listed.{EachOnce, ArePlaces, IsListed};
ghost use Rattle.bag_cells.specs.Once.{ListsEachOnce};
ghost use Rattle.bag_cells.specs.Written.{number_bytes, width_of, descriptor_of, cell_bytes, cell_data, header_bytes};
ghost use Rattle.bag_cells.specs.Written.{bag_over, bag_of};

use bit_slice::BitSlice;
use cell_hash::descriptor;
use cell_nodes::Kind;
use cell_pool::{NodeId, Pool, PoolNode};
use std::alloc::{AllocError, Global};
use tlb_memory::NoMemory;

/// How many bytes a number takes, at least one.
fn width_of(number: usize) -> u8
    ensures { result ≡ width_of number }
{
    if number < 256 {
        return 1;
    }
    1 + width_of(number / 256)
}

/// Adds the lowest `width` bytes of a number, the highest first.
fn push_number(bytes: &mut Vec<u8>, width: u8, number: usize) -> Result<(), NoMemory>
    ensures { OnOk result (bytes.new.items ≡ bytes.old.items ++ number_bytes width number) }
{
    if width == 0 {
        return Ok(());
    }
    push_number(bytes, width - 1, number / 256)?;
    push_byte(bytes, (number % 256) as u8)
}

fn push_byte(bytes: &mut Vec<u8>, byte: u8) -> Result<(), NoMemory>
    ensures { OnOk result (bytes.new.items ≡ bytes.old.items ++ byte ∷ []) }
{
    bytes.push(byte).map_err(AllocError::from)?;
    Ok(())
}

/// Adds the bits, completed to whole bytes.
fn push_completed(bytes: &mut Vec<u8>, bits: BitSlice<'_>) -> Result<(), NoMemory>
    ensures { OnOk result (bytes.new.items ≡ bytes.old.items ++ completed bits.entry) }
{
    let count = (bits.len() + 7) / 8;
    'bytes: for i in 0..count {
        push_byte(bytes, bits.completed_byte(i))?;
    }
    Ok(())
}

/// Adds the references to the nodes of these numbers, each by the place of its node.
fn push_refs(
    bytes: &mut Vec<u8>,
    size: u8,
    places: &[usize],
    children: &[NodeId],
) -> Result<(), NoMemory>
    requires { All (λ n. n < length places.now) children.now }
    ensures { OnOk result
        (bytes.new.items
        ≡ bytes.old.items ++ flat_map (number_bytes size) (map (slice_index places.now) children.now)) }
{
    'refs: for child in children {
        push_number(bytes, size, places[child.number() as usize])?;
    }
    Ok(())
}

fn is_exotic(kind: Kind) -> bool
    ensures { result ≡ is_exotic kind }
{
    match kind {
        Kind::Ordinary => false,
        Kind::Pruned => true,
        Kind::Library => true,
        Kind::Proof => true,
        Kind::Update => true,
    }
}

fn descriptor_of(node: &PoolNode) -> (u8, u8)
    ensures { result ≡ descriptor_of (node_tree node.now) }
{
    descriptor(
        node.refs(),
        is_exotic(node.kind()),
        node.mask(),
        node.bits().len(),
    )
}

/// The place of each number in the list; 0 for the numbers below `count` that aren't there.
fn places_of(alloc: Global, count: usize, order: &[NodeId]) -> Result<Vec<usize>, NoMemory>
    requires there { All (λ n. n < count) order.now }
    requires once { EachOnce order.now }
    ensures places { IfOk result (λ v. ArePlaces v.items order.now (length order.now)) }
    ensures count { IfOk result (λ v. length v.items ≡ count) }
{
    let mut places = vec![in alloc; 0usize; count]?;
    'numbers: for (i, id) in order.iter().enumerate() {
        places[id.number() as usize] = i;
    }
    Ok(places)
}

/// Adds the cell of the node.
fn push_cell(
    bytes: &mut Vec<u8>,
    size: u8,
    pool: &Pool,
    order: &[NodeId],
    places: &[usize],
    i: usize,
) -> Result<(), NoMemory>
    requires listed { IsListed pool.now order.now places.now }
    requires there { i < length order.now }
    ensures { OnOk result
        (bytes.new.items
        ≡ bytes.old.items
        ++ cell_bytes size (trees_at pool.now order.now) (tree_at pool.now (slice_index order.now i))) }
{
    pool.ordered();
    let node = pool.get(order[i]);
    let (first, second) = descriptor_of(node);
    push_byte(bytes, first)?;
    push_byte(bytes, second)?;
    push_completed(bytes, node.bits())?;
    push_refs(bytes, size, places, node.children())
}

/// The cells of the nodes in their order.
fn cell_data(
    alloc: Global,
    size: u8,
    pool: &Pool,
    order: &[NodeId],
    places: &[usize],
) -> Result<Vec<u8>, NoMemory>
    requires { IsListed pool.now order.now places.now }
    ensures { IfOk result (λ v. v.items ≡ cell_data size (trees_at pool.now order.now)) }
{
    let mut data = Vec::new(alloc);
    'cells: for i in 0..order.len() {
        push_cell(&mut data, size, pool, order, places, i)?;
    }
    Ok(data)
}

fn header_bytes(alloc: Global, cells: usize, data_size: usize) -> Result<Vec<u8>, NoMemory>
    ensures { IfOk result (λ v. v.items ≡ header_bytes cells data_size) }
{
    let size = width_of(cells);
    let off_bytes = width_of(data_size);
    let mut bytes = Vec::from_slice(alloc, &[0xb5, 0xee, 0x9c, 0x72, size, off_bytes])?;
    push_number(&mut bytes, size, cells)?;
    push_number(&mut bytes, size, 1)?;
    push_number(&mut bytes, size, 0)?;
    push_number(&mut bytes, off_bytes, data_size)?;
    push_number(&mut bytes, size, 0)?;
    Ok(bytes)
}

/// The raw bytes of the bag of the tree of that number, with one root, at index 0: each distinct cell once, the reverse
/// of the order in which a walk from left to right completes them; no index, no sum, no cache bit; the least sizes of
/// the numbers. The time grows with the number of the pool's nodes.
pub fn write_bag(alloc: Global, pool: &Pool, root: NodeId) -> Result<Vec<u8>, NoMemory>
    requires { root < length pool.now }
    ensures bytes { IfOk result (λ v. IfSome (slice_get pool.now root) (λ t. v.items ≡ bag_of t)) }
    // What is written is read again as the same tree.
    ensures holds { IfOk result (λ v. IfSome (slice_get pool.now root) (λ t. BagHolds v.items t)) }
    // It lists each distinct cell exactly once.
    ensures once { IfOk result (λ v. IfSome (slice_get pool.now root) (λ t. ListsEachOnce v.items t)) }
{
    pool.good();
    pool.small();
    pool.ordered();
    let order = pool.order(alloc, root)?;
    let places = places_of(alloc, pool.count() as usize, order.as_slice())?;
    let size = width_of(order.len());
    let data = cell_data(alloc, size, pool, order.as_slice(), places.as_slice())?;
    let mut bytes = header_bytes(alloc, order.len(), data.len())?;
    bytes.extend_from_slice(data.as_slice())?;
    Ok(bytes)
}

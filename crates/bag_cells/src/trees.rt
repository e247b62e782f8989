//! The cells of a bag as shared nodes, from the last to the first.
ghost use Rattle.std.specs.Prelude.{◌≡◌, ◌≤◌, ◌<◌, ◌+◌, ◌-◌, ◌*◌, length, true, IfSome, IsTrue, None, Some};
ghost use Rattle.cell_nodes.specs.Layout.{has_layout};
ghost use Rattle.bag_cells.specs.Cells.{byte_count, ref_count, is_completed, last_byte, reported_mask};
ghost use Rattle.bag_cells.specs.Trees.{bit_count, cell_bits, cell_kind, picked, node, refusal_of};
ghost use Rattle.bag_cells.specs.Bag.{IfAnswered, refusal};
ghost use Rattle.bag_cells.specs.Known.{HasHeader, IsCell, ArePicked, IsTree, AreStarts, AreTrees};

use crate::cells::{byte_count, ref_at, ref_count};
use crate::error::BagError;
use crate::header::Header;
use bit_slice::{BitSlice, BitString};
use cell_nodes::{Cell, CellError, Kind, exotic_kind};
use std::alloc::{AllocError, Global};

/// How many bits the cell at the place has.
#[tactic(auto, unfolding(crate::specs::Trees::bit_count))]
fn bit_count(raw: &[u8], place: usize) -> u32
    requires within { place + 2 + byte_count raw.now place ≤ length raw.now }
    requires completed { is_completed raw.now place ≡ true → 0 < last_byte raw.now place }
    ensures value { result ≡ bit_count raw.now place }
    ensures short { result ≤ 1023 }
    ensures whole { result ≤ 8 * byte_count raw.now place }
{
    let whole = 8 * u32::from(raw[place + 1] / 2);
    if raw[place + 1] % 2 == 0 {
        return whole;
    }
    let last = raw[place + 1 + byte_count(raw, place)];
    whole + (7 - last.trailing_zeros())
}

#[tactic(auto, unfolding(crate::specs::Trees::cell_bits))]
fn bits_at(alloc: Global, raw: &[u8], place: usize) -> Result<BitString, BagError>
    requires within { place + 2 + byte_count raw.now place ≤ length raw.now }
    requires completed { is_completed raw.now place ≡ true → 0 < last_byte raw.now place }
    ensures { IfAnswered result (λ b. b ≡ cell_bits raw.now place) (λ _. ⊥) }
{
    let from = place + 2;
    let data = &raw[from..from + byte_count(raw, place)];
    let bits = BitString::from_bytes(alloc, data, bit_count(raw, place))?;
    Ok(bits)
}

#[tactic(auto, unfolding(crate::specs::Trees::cell_kind))]
fn kind_at(raw: &[u8], place: usize, bits: BitSlice<'_>) -> Option<Kind>
    requires place { place < length raw.now }
    requires bits { bits ≡ cell_bits raw.now place }
    ensures value { result ≡ cell_kind raw.now place }
    ensures layout { IfSome result (λ k. IsTrue (has_layout k (cell_bits raw.now place) (ref_count raw.now place))) }
{
    if raw[place] / 8 % 2 == 1 {
        exotic_kind(bits, ref_count(raw, place) as u32)
    } else {
        Some(Kind::Ordinary)
    }
}

/// The cells that the cell at the place refers to. `later` holds the later cells, the last cell first.
fn picked(
    alloc: Global,
    raw: &[u8],
    header: Header,
    i: usize,
    place: usize,
    later: &[Cell],
) -> Result<Vec<Cell>, BagError>
    requires header { HasHeader raw.now header }
    requires cell { IsCell raw.now i place }
    requires later { length later.now + 1 + i ≡ header.cells }
    ensures { IfAnswered result (λ v. ArePicked raw.now place later.now v.items) (λ _. ⊥) }
{
    let refs = ref_count(raw, place);
    let mut children = Vec::with_capacity(alloc, refs)?;
    'refs: for k in 0..refs {
        let cell = &later[header.cells - 1 - ref_at(raw, header, place, k)];
        children.push(cell.share()?).map_err(AllocError::from)?;
    }
    Ok(children)
}

/// Cell `i`, which begins at the place.
#[tactic(auto, unfolding(crate::specs::Trees::node))]
fn cell_at(
    alloc: Global,
    raw: &[u8],
    header: Header,
    i: usize,
    place: usize,
    later: &[Cell],
) -> Result<Cell, BagError>
    requires header { HasHeader raw.now header }
    requires cell { IsCell raw.now i place }
    requires later { length later.now + 1 + i ≡ header.cells }
    ensures { IfAnswered result (λ c. IsTree raw.now i place later.now c)
        (λ e. refusal_of i (reported_mask raw.now place) (node raw.now place later.now) ≡ Some e) }
{
    let bits = bits_at(alloc, raw, place)?;
    let Some(kind) = kind_at(raw, place, bits.slice()) else {
        return Err(BagError::BadExotic(i as u64));
    };
    let children = picked(alloc, raw, header, i, place, later)?;
    let children = children.as_slice();
    if Cell::mask_of(kind, bits.slice(), children) != raw[place] / 32 {
        return Err(BagError::BadMask(i as u64));
    }
    match Cell::of_kind(alloc, kind, bits, children) {
        Ok(cell) => Ok(cell),
        Err(CellError::TooDeep) => Err(BagError::TooDeep(i as u64)),
        Err(CellError::BadExotic) => Err(BagError::BadExotic(i as u64)),
        Err(CellError::NoMemory) => Err(BagError::NoMemory),
    }
}

/// All cells, the last first, where none is refused by its tree.
pub(crate) fn cells_of(
    alloc: Global,
    raw: &[u8],
    header: Header,
    starts: &[usize],
) -> Result<Vec<Cell>, BagError>
    requires header { HasHeader raw.now header }
    requires starts { AreStarts raw.now starts.now }
    ensures { IfAnswered result (λ cells. AreTrees raw.now cells.items) (λ e. refusal raw.now ≡ Some e) }
{
    let mut cells = Vec::with_capacity(alloc, header.cells)?;
    'cells: for made in 0..header.cells {
        let i = header.cells - 1 - made;
        let cell = cell_at(alloc, raw, header, i, starts[i], cells.as_slice())?;
        cells.push(cell).map_err(AllocError::from)?;
    }
    Ok(cells)
}

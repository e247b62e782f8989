//! The cells of a bag by themselves, from the first to the last.
ghost use Rattle.std.specs.Prelude.{◌≡◌, ◌≤◌, ◌<◌, ◌+◌, ◌*◌, ◌%◌, length, MatchResult, None, Some};
ghost use Rattle.bag_cells.specs.Header.{data_end, size};
ghost use Rattle.bag_cells.specs.Cells.{ref_count, byte_count, ref_at, cell_size, is_malformed, goes_back, refusal_at};
ghost use Rattle.bag_cells.specs.Bag.{IfAnswered, refusal};
ghost use Rattle.bag_cells.specs.Known.{HasHeader, IsLaid, EndsAt, AreStarts};

use crate::bytes::number_at;
use crate::error::BagError;
use crate::header::Header;
use std::alloc::{AllocError, Global};

/// How many references the cell at the place has.
pub(crate) fn ref_count(raw: &[u8], place: usize) -> usize
    requires { place < length raw.now }
    ensures value { result ≡ ref_count raw.now place }
    ensures bound { result ≤ 7 }
{
    usize::from(raw[place] % 8)
}

/// How many data bytes the cell at the place has.
pub(crate) fn byte_count(raw: &[u8], place: usize) -> usize
    requires { place + 1 < length raw.now }
    ensures value { result ≡ byte_count raw.now place }
    ensures bound { result ≤ 128 }
{
    (usize::from(raw[place + 1]) + 1) / 2
}

/// Reference `i` of the cell at the place.
#[tactic(auto, unfolding(crate::specs::Cells::ref_at))]
pub(crate) fn ref_at(raw: &[u8], header: Header, place: usize, i: usize) -> usize
    requires header { HasHeader raw.now header }
    requires few { i < 4 }
    requires within { place + 2 + byte_count raw.now place + i * size raw.now + size raw.now ≤ length raw.now }
    ensures { result ≡ ref_at raw.now place i }
{
    let from = place + 2 + byte_count(raw, place) + i * header.size;
    number_at(raw, from, header.size) as usize
}

#[tactic(auto, unfolding(crate::specs::Cells::cell_size))]
fn is_malformed(raw: &[u8], header: Header, place: usize) -> bool
    requires header { HasHeader raw.now header }
    requires inside { place < data_end raw.now }
    ensures { result ≡ is_malformed raw.now place }
{
    let refs = ref_count(raw, place);
    if refs > 4 || place + 2 > header.data_end {
        return true;
    }
    let bytes = byte_count(raw, place);
    if place + 2 + bytes + refs * header.size > header.data_end {
        return true;
    }
    raw[place + 1] % 2 == 1 && raw[place + 1 + bytes] % 128 == 0
}

fn goes_back(raw: &[u8], header: Header, i: usize, place: usize) -> bool
    requires header { HasHeader raw.now header }
    requires laid { IsLaid raw.now place }
    ensures { result ≡ goes_back raw.now i place (ref_count raw.now place) }
{
    let mut back = false;
    'refs: for k in 0..ref_count(raw, place) {
        let cell = ref_at(raw, header, place, k);
        back = back || cell <= i || header.cells <= cell;
    }
    back
}

// The place where cell `i`, which begins at the place, ends.
#[tactic(auto, unfolding(crate::specs::Cells::refusal_at, crate::specs::Cells::cell_size))]
fn end_of(raw: &[u8], header: Header, i: usize, place: usize) -> Result<usize, BagError>
    requires header { HasHeader raw.now header }
    requires count { i < header.cells }
    ensures { MatchResult result (λ stop. EndsAt raw.now i place stop) (λ e. refusal_at raw.now i place ≡ Some e) }
{
    if header.data_end <= place {
        return Err(BagError::BadCell(i as u64));
    }
    if raw[place] / 16 % 2 == 1 {
        return Err(BagError::StoredHashes(i as u64));
    }
    if is_malformed(raw, header, place) {
        return Err(BagError::BadCell(i as u64));
    }
    if goes_back(raw, header, i, place) {
        return Err(BagError::BackReference(i as u64));
    }
    Ok(place + 2 + byte_count(raw, place) + ref_count(raw, place) * header.size)
}

/// The places where the cells begin, where none is refused by itself.
pub(crate) fn starts_of(alloc: Global, raw: &[u8], header: Header) -> Result<Vec<usize>, BagError>
    requires { HasHeader raw.now header }
    ensures { IfAnswered result (λ starts. AreStarts raw.now starts.items) (λ e. refusal raw.now ≡ Some e) }
{
    let mut starts = Vec::with_capacity(alloc, header.cells)?;
    let mut place = header.data_start;
    'cells: for i in 0..header.cells {
        starts.push(place).map_err(AllocError::from)?;
        place = end_of(raw, header, i, place)?;
    }
    if place < header.data_end {
        return Err(BagError::BadHeader(6 + 3 * header.size as u64));
    }
    Ok(starts)
}

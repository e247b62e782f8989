//! The header of a bag.
ghost use Rattle.std.specs.Prelude.{◌≡◌, ◌≤◌, ◌<◌, ◌+◌, length, MatchResult, None, Some};
ghost use Rattle.bag_cells.specs.Header.{size, header_end, differs, magic_differs, start_refusal, count_refusal};
ghost use Rattle.bag_cells.specs.Header.{length_refusal, sum_refusal, root_refusal, header_refusal};
ghost use Rattle.bag_cells.specs.Known.{HasSizes, HasCount, HasExtent, IsRoot, HasHeader};

use crate::bytes::{little_endian, number_at};
use crate::error::BagError;
use tlb_sums::crc32c;

/// What the cells are read by.
#[derive(Clone, Copy)]
pub(crate) struct Header {
    /// The bytes of a cell's number.
    pub(crate) size: usize,
    /// The number of cells.
    pub(crate) cells: usize,
    /// The number of the root cell.
    pub(crate) root: usize,
    /// The places where the cell data begin and end.
    pub(crate) data_start: usize,
    pub(crate) data_end: usize,
}

/// The bytes of a cell's number, and of the length of the cell data.
#[derive(Clone, Copy)]
pub(crate) struct Sizes {
    pub(crate) size: usize,
    pub(crate) off_bytes: usize,
}

/// The places where the cell data begin and end.
#[derive(Clone, Copy)]
pub(crate) struct Extent {
    pub(crate) data_start: usize,
    pub(crate) data_end: usize,
}

fn differs(raw: &[u8], place: usize, due: u8) -> bool
    ensures { result ≡ differs raw.now place due }
{
    place < raw.len() && raw[place] != due
}

#[tactic(auto, unfolding(crate::specs::Header::magic_differs))]
fn magic_differs(raw: &[u8]) -> bool
    ensures { result ≡ magic_differs raw.now }
{
    differs(raw, 0, 0xb5) || differs(raw, 1, 0xee) || differs(raw, 2, 0x9c) || differs(raw, 3, 0x72)
}

#[tactic(auto, unfolding(crate::specs::Header::start_refusal, crate::specs::Header::size, crate::specs::Header::off_bytes, crate::specs::Header::header_end))]
fn sizes_of(raw: &[u8]) -> Result<Sizes, BagError>
    ensures { MatchResult result (λ sizes. HasSizes raw.now sizes) (λ e. start_refusal raw.now ≡ Some e) }
{
    let length = raw.len() as u64;
    if magic_differs(raw) {
        return Err(BagError::BadMagic);
    }
    if raw.len() < 5 {
        return Err(BagError::Truncated(length));
    }
    let size = usize::from(raw[4] % 8);
    if raw[4] / 8 % 4 != 0 || size == 0 || size > 4 {
        return Err(BagError::BadHeader(4));
    }
    if raw.len() < 6 {
        return Err(BagError::Truncated(length));
    }
    let off_bytes = usize::from(raw[5]);
    if off_bytes == 0 || off_bytes > 8 {
        return Err(BagError::BadHeader(5));
    }
    if raw.len() < 6 + 3 * size + off_bytes {
        return Err(BagError::Truncated(length));
    }
    Ok(Sizes { size, off_bytes })
}

#[tactic(auto, unfolding(crate::specs::Header::count_refusal, crate::specs::Header::cells, crate::specs::Header::roots, crate::specs::Header::absent))]
fn count_of(raw: &[u8], sizes: Sizes) -> Result<usize, BagError>
    requires { HasSizes raw.now sizes }
    ensures { MatchResult result (λ cells. HasCount raw.now cells) (λ e. count_refusal raw.now ≡ Some e) }
{
    let size = sizes.size;
    let cells = number_at(raw, 6, size);
    if cells == 0 {
        return Err(BagError::BadHeader(6));
    }
    if cells > 262_144 {
        return Err(BagError::TooManyCells(cells));
    }
    let roots = number_at(raw, 6 + size, size);
    if roots == 0 {
        return Err(BagError::BadHeader(6 + size as u64));
    }
    if roots > 1 {
        return Err(BagError::ManyRoots(roots));
    }
    let absent = number_at(raw, 6 + 2 * size, size);
    if absent != 0 {
        return Err(BagError::AbsentCells(absent));
    }
    Ok(cells as usize)
}

#[tactic(auto, unfolding(crate::specs::Header::length_refusal, crate::specs::Header::whole_size, crate::specs::Header::data_end, crate::specs::Header::data_size, crate::specs::Header::data_start, crate::specs::Header::header_end))]
fn extent_of(raw: &[u8], sizes: Sizes, cells: usize) -> Result<Extent, BagError>
    requires sizes { HasSizes raw.now sizes }
    requires count { HasCount raw.now cells }
    ensures { MatchResult result (λ extent. HasExtent raw.now extent) (λ e. length_refusal raw.now ≡ Some e) }
{
    let Sizes { size, off_bytes } = sizes;
    let index = if raw[4] / 128 == 1 {
        cells * off_bytes
    } else {
        0
    };
    let data_start = 6 + 3 * size + off_bytes + size + index;
    let data_size = number_at(raw, 6 + 3 * size, off_bytes);
    let sum = if raw[4] / 64 % 2 == 1 { 4 } else { 0 };
    let whole = data_start as u128 + u128::from(data_size) + sum;
    let length = raw.len() as u128;
    if length < whole {
        return Err(BagError::Truncated(raw.len() as u64));
    }
    if whole < length {
        return Err(BagError::Trailing(whole as u64));
    }
    Ok(Extent {
        data_start,
        data_end: data_start + data_size as usize,
    })
}

#[tactic(auto, unfolding(crate::specs::Header::sum_refusal, crate::specs::Header::kept_sum, crate::specs::Header::computed_sum))]
fn judge_sum(raw: &[u8], extent: Extent) -> Result<(), BagError>
    requires { HasExtent raw.now extent }
    ensures { MatchResult result (λ _. sum_refusal raw.now ≡ None) (λ e. sum_refusal raw.now ≡ Some e) }
{
    if raw[4] / 64 % 2 == 1 {
        let kept = little_endian(raw, extent.data_end);
        let computed = crc32c(&raw[..extent.data_end]);
        if kept != computed {
            return Err(BagError::BadSum(kept, computed));
        }
    }
    Ok(())
}

#[tactic(auto, unfolding(crate::specs::Header::root_refusal, crate::specs::Header::root, crate::specs::Header::header_end))]
fn root_of(raw: &[u8], sizes: Sizes, cells: usize) -> Result<usize, BagError>
    requires sizes { HasSizes raw.now sizes }
    requires count { HasCount raw.now cells }
    requires room { header_end raw.now + size raw.now ≤ length raw.now }
    ensures { MatchResult result (λ root. IsRoot raw.now root) (λ e. root_refusal raw.now ≡ Some e) }
{
    let header_end = 6 + 3 * sizes.size + sizes.off_bytes;
    let root = number_at(raw, header_end, sizes.size) as usize;
    if cells <= root {
        return Err(BagError::BadHeader(header_end as u64));
    }
    Ok(root)
}

/// The header, where none of its fields is refused.
pub(crate) fn header_of(raw: &[u8]) -> Result<Header, BagError>
    ensures { MatchResult result (λ header. HasHeader raw.now header) (λ e. header_refusal raw.now ≡ Some e) }
{
    let sizes = sizes_of(raw)?;
    let cells = count_of(raw, sizes)?;
    let extent = extent_of(raw, sizes, cells)?;
    judge_sum(raw, extent)?;
    let root = root_of(raw, sizes, cells)?;
    Ok(Header {
        size: sizes.size,
        cells,
        root,
        data_start: extent.data_start,
        data_end: extent.data_end,
    })
}

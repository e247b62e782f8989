//! The fields of exotic cells.
ghost use Rattle.std.specs.Prelude.{◌≡◌, ◌≤◌, ◌<◌, ◌+◌, ◌*◌, length, IfSome, IsTrue};
ghost use Rattle.cell_nodes.specs.declared.tree.Kind.TheVariants.{Pruned as PrunedKind};
ghost use Rattle.cell_nodes.specs.Layout.{byte_of, exotic_kind, has_layout, pair_count, stored_depth, stored_hash};
ghost use Rattle.cell_nodes.specs.Layout.{stored_mask};
ghost use Rattle.cell_nodes.specs.Levels.{set_bits};

use crate::tree::Kind;
use bit_slice::BitSlice;

/// How many of the lowest `level` bits of a mask are set.
pub(crate) fn set_bits(level: u32, mask: u8) -> u32
    requires { level ≤ 3 }
    ensures value { result ≡ set_bits level mask }
    ensures bound { result ≤ level }
{
    let mut count = 0;
    'levels: for i in 0..level {
        count += u32::from((mask >> i) % 2);
    }
    count
}

/// Byte `i`, which is there.
fn byte_at(bits: &BitSlice<'_>, i: u32) -> u8
    requires { 8 * i + 8 ≤ length bits.now }
    ensures { result ≡ byte_of i bits.now }
{
    bits.completed_byte(i)
}

/// Whether the bits, with `refs` references, are laid out as a pruned branch.
fn is_pruned(bits: &BitSlice<'_>, refs: u32) -> bool
    ensures { result ≡ has_layout PrunedKind bits.now refs }
{
    let count = bits.len();
    if count < 16 || refs != 0 || byte_at(bits, 0) != 1 {
        return false;
    }
    let mask = byte_at(bits, 1);
    1 <= mask && mask <= 7 && count == 16 + 272 * set_bits(3, mask)
}

/// Whether the bits, with `refs` references, are laid out as a cell of that kind.
fn has_layout(kind: Kind, bits: &BitSlice<'_>, refs: u32) -> bool
    ensures { result ≡ has_layout kind bits.now refs }
{
    let count = bits.len();
    match kind {
        Kind::Ordinary => true,
        Kind::Pruned => is_pruned(bits, refs),
        Kind::Library => count == 264 && refs == 0 && byte_at(bits, 0) == 2,
        Kind::Proof => count == 280 && refs == 1 && byte_at(bits, 0) == 3,
        Kind::Update => count == 552 && refs == 2 && byte_at(bits, 0) == 4,
    }
}

/// The kind of the exotic cell that has these bits and that many references. `None` where no kind
/// has such a layout. The layouts are those of the TON documentation, "Exotic cells".
pub fn exotic_kind(bits: BitSlice<'_>, refs: u32) -> Option<Kind>
    ensures value { result ≡ exotic_kind bits.entry refs }
    ensures layout { IfSome result (λ kind. IsTrue (has_layout kind bits.entry refs)) }
{
    if has_layout(Kind::Pruned, &bits, refs) {
        return Some(Kind::Pruned);
    }
    if has_layout(Kind::Library, &bits, refs) {
        return Some(Kind::Library);
    }
    if has_layout(Kind::Proof, &bits, refs) {
        return Some(Kind::Proof);
    }
    if has_layout(Kind::Update, &bits, refs) {
        return Some(Kind::Update);
    }
    None
}

/// The mask that a pruned branch stores.
pub(crate) fn stored_mask(bits: &BitSlice<'_>) -> u8
    requires { 16 ≤ length bits.now }
    ensures { result ≡ stored_mask bits.now }
{
    byte_at(bits, 1)
}

/// The hash of pair `j` of a pruned branch.
pub(crate) fn stored_hash(bits: &BitSlice<'_>, j: u32) -> [u8; 32]
    requires few { j ≤ 3 }
    requires within { 272 + 256 * j ≤ length bits.now }
    ensures { result ≡ stored_hash j bits.now }
{
    let mut hash = [0u8; 32];
    let first = 2 + 32 * j;
    'bytes: for i in 0..32u32 {
        hash[i as usize] = byte_at(bits, first + i);
    }
    hash
}

/// The depth of pair `j` of a pruned branch.
pub(crate) fn stored_depth(bits: &BitSlice<'_>, j: u32) -> u16
    requires few { j ≤ 3 }
    requires within { 32 + 256 * pair_count (stored_mask bits.now) + 16 * j ≤ length bits.now }
    ensures { result ≡ stored_depth j bits.now }
{
    let first = 2 + 32 * set_bits(3, stored_mask(bits)) + 2 * j;
    u16::from_be_bytes([byte_at(bits, first), byte_at(bits, first + 1)])
}

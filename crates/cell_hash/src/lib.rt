//! The hash of one representation of a cell: the SHA-256 of its descriptor bytes, its content, and the
//! depths and hashes of its children.
#![tactic(auto)]

ghost use Rattle.std.specs.Prelude.{◌≡◌, ◌≤◌, ◌++◌, List, ℕ, length};
ghost use Rattle.std.specs.List.{flat_map};
ghost use Rattle.sha2.specs.Hashers.{Holds256};
ghost use Rattle.sha2.specs.Sha256.{sha256};
ghost use Rattle.bit_slice.specs.Bits.{completed};
ghost use Rattle.cell_hash.specs.Representation.{content_bytes, depth_bytes, descriptor, hash_bytes, representation};

use bit_slice::BitSlice;
use sha2::{Digest, Sha256};

/// What a representation tells of a child, at one level.
#[derive(Clone, Copy, Debug, Default, Drop, PartialEq, Eq)]
pub struct ChildMark {
    /// 0 without references, else 1 more than the deepest child's.
    pub depth: u16,
    /// The SHA-256 of the child's representation.
    pub hash: [u8; 32],
}

/// What stands in a representation between the descriptor bytes and the children.
#[derive(Drop)]
pub enum Content<'a> {
    /// The cell's data.
    Data(BitSlice<'a>),
    /// In place of the data, the cell's hash at the level below.
    Previous([u8; 32]),
}

/// The descriptor bytes of a cell with `refs` references and `bits` bits of data. The level mask `mask`
/// has only the bits below the level of the representation.
pub fn descriptor(refs: u32, exotic: bool, mask: u8, bits: u32) -> (u8, u8)
    requires few { refs ≤ 4 }
    requires low { mask ≤ 7 }
    requires short { bits ≤ 1023 }
    ensures { result ≡ descriptor refs exotic mask bits }
{
    let first = refs as u8 + 8 * u8::from(exotic) + 32 * mask;
    let second = bits / 8 + (bits + 7) / 8;
    (first, second as u8)
}

/// The SHA-256 of the representation that begins with the descriptor bytes `d`.
pub fn hash_parts(d: (u8, u8), content: Content<'_>, children: &[ChildMark]) -> [u8; 32]
    requires { length children.now ≤ 4 }
    ensures { result ≡ sha256 (representation d content.entry children.now) }
{
    let mut hasher = Sha256::new();
    hasher.update([d.0, d.1]);
    add_content(&mut hasher, content);
    add_depths(&mut hasher, children);
    add_hashes(&mut hasher, children);
    hasher.finalize()
}

fn add_content(hasher: &mut Sha256, content: Content<'_>)
    ensures { (m : List ℕ) → Holds256 hasher.old m → Holds256 hasher.new (m ++ content_bytes content.entry) }
{
    match content {
        Content::Data(bits) => add_completed(hasher, bits),
        Content::Previous(hash) => hasher.update(hash),
    }
}

fn add_completed(hasher: &mut Sha256, bits: BitSlice<'_>)
    ensures { (m : List ℕ) → Holds256 hasher.old m → Holds256 hasher.new (m ++ completed bits.entry) }
{
    let count = (bits.len() + 7) / 8;
    let mut bytes = [0u8; 128];
    'bytes: for i in 0..count {
        bytes[i as usize] = bits.completed_byte(i);
    }
    hasher.update(&bytes[..count as usize]);
}

fn add_depths(hasher: &mut Sha256, children: &[ChildMark])
    ensures { (m : List ℕ) → Holds256 hasher.old m → Holds256 hasher.new (m ++ flat_map depth_bytes children.now) }
{
    'depths: for child in children {
        hasher.update(child.depth.to_be_bytes());
    }
}

fn add_hashes(hasher: &mut Sha256, children: &[ChildMark])
    ensures { (m : List ℕ) → Holds256 hasher.old m → Holds256 hasher.new (m ++ flat_map hash_bytes children.now) }
{
    'hashes: for child in children {
        hasher.update(child.hash);
    }
}

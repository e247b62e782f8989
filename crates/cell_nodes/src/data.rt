//! The data of the exotic cells that are made.
ghost use Rattle.std.specs.Prelude.{◌≡◌, ◌≤◌, ◌+◌, ◌*◌, ◌++◌, length, map, IfOk};
ghost use Rattle.std.specs.List.{flat_map};
ghost use Rattle.bit_slice.specs.Bits.{spelled};
ghost use Rattle.cell_nodes.specs.Constructed.{bits_of, hash_bits, depth_bits, pruned_bits, library_bits};
ghost use Rattle.cell_nodes.specs.Constructed.{proof_bits, update_bits};

use bit_slice::{BitString, BitWriter};
use cell_hash::ChildMark;
use std::alloc::Global;
use tlb_memory::NoMemory;

#[tactic(auto, using(crate::proofs::Lengths::lengths))]
fn add_byte(writer: &mut BitWriter, byte: u8)
    requires { length writer.old + 8 ≤ 1023 }
    ensures bits { writer.new ≡ writer.old ++ spelled 8 byte }
    ensures count { length writer.new ≡ length writer.old + 8 }
{
    let _ = writer.push_number(u128::from(byte), 8);
}

#[tactic(auto, using(crate::proofs::Lengths::lengths))]
fn add_depth(writer: &mut BitWriter, depth: u16)
    requires { length writer.old + 16 ≤ 1023 }
    ensures bits { writer.new ≡ writer.old ++ spelled 16 depth }
    ensures count { length writer.new ≡ length writer.old + 16 }
{
    let _ = writer.push_number(u128::from(depth), 16);
}

fn add_hash(writer: &mut BitWriter, hash: &[u8; 32])
    requires { length writer.old + 256 ≤ 1023 }
    ensures bits { writer.new ≡ writer.old ++ bits_of hash.now }
    ensures count { length writer.new ≡ length writer.old + 256 }
{
    'bytes: for byte in hash {
        add_byte(writer, *byte);
    }
}

fn add_hashes(writer: &mut BitWriter, pairs: &[ChildMark])
    requires { length writer.old + 256 * length pairs.now ≤ 1023 }
    ensures bits { writer.new ≡ writer.old ++ flat_map hash_bits pairs.now }
    ensures count { length writer.new ≡ length writer.old + 256 * length pairs.now }
{
    'pairs: for pair in pairs {
        add_hash(writer, &pair.hash);
    }
}

fn add_depths(writer: &mut BitWriter, pairs: &[ChildMark])
    requires { length writer.old + 16 * length pairs.now ≤ 1023 }
    ensures bits { writer.new ≡ writer.old ++ flat_map depth_bits pairs.now }
    ensures count { length writer.new ≡ length writer.old + 16 * length pairs.now }
{
    'pairs: for pair in pairs {
        add_depth(writer, pair.depth);
    }
}

/// The data of a pruned branch.
pub(crate) fn pruned_data(
    alloc: Global,
    mask: u8,
    pairs: &[ChildMark],
) -> Result<BitString, NoMemory>
    requires { length pairs.now ≤ 3 }
    ensures { IfOk result (λ b. b ≡ pruned_bits mask pairs.now) }
{
    let mut writer = BitWriter::new(alloc)?;
    add_byte(&mut writer, 1);
    add_byte(&mut writer, mask);
    add_hashes(&mut writer, pairs);
    add_depths(&mut writer, pairs);
    Ok(writer.finish())
}

/// The data of a library cell.
pub(crate) fn library_data(alloc: Global, hash: &[u8; 32]) -> Result<BitString, NoMemory>
    ensures { IfOk result (λ b. b ≡ library_bits hash.now) }
{
    let mut writer = BitWriter::new(alloc)?;
    add_byte(&mut writer, 2);
    add_hash(&mut writer, hash);
    Ok(writer.finish())
}

/// The data of a proof over a child with that hash and depth.
pub(crate) fn proof_data(alloc: Global, child: &ChildMark) -> Result<BitString, NoMemory>
    ensures { IfOk result (λ b. b ≡ proof_bits child.now.hash child.now.depth) }
{
    let mut writer = BitWriter::new(alloc)?;
    add_byte(&mut writer, 3);
    add_hash(&mut writer, &child.hash);
    add_depth(&mut writer, child.depth);
    Ok(writer.finish())
}

/// The data of an update over two children with those hashes and depths.
pub(crate) fn update_data(
    alloc: Global,
    old: &ChildMark,
    new: &ChildMark,
) -> Result<BitString, NoMemory>
    ensures { IfOk result (λ b. b ≡ update_bits old.now.hash new.now.hash old.now.depth new.now.depth) }
{
    let mut writer = BitWriter::new(alloc)?;
    add_byte(&mut writer, 4);
    add_hash(&mut writer, &old.hash);
    add_hash(&mut writer, &new.hash);
    add_depth(&mut writer, old.depth);
    add_depth(&mut writer, new.depth);
    Ok(writer.finish())
}

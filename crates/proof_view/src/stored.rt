//! What the cell of a proof stores.
ghost use Rattle.std.specs.Prelude.{◌≡◌, ◌≤◌, ◌*◌, ◌+◌, length};
ghost use Rattle.cell_nodes.specs.Layout.{byte_of, depth_from, hash_from};

use bit_slice::BitSlice;

/// Byte `i`, which is there.
fn byte_at(bits: &BitSlice<'_>, i: u32) -> u8
    requires { 8 * i + 8 ≤ length bits.now }
    ensures { result ≡ byte_of i bits.now }
{
    bits.completed_byte(i)
}

/// The hash behind the 8 bits of the type.
pub(crate) fn stored_hash(bits: &BitSlice<'_>) -> [u8; 32]
    requires { 264 ≤ length bits.now }
    ensures { result ≡ hash_from 8 bits.now }
{
    let mut hash = [0u8; 32];
    'bytes: for i in 0..32u32 {
        hash[i as usize] = byte_at(bits, 1 + i);
    }
    hash
}

/// The depth behind the hash.
pub(crate) fn stored_depth(bits: &BitSlice<'_>) -> u16
    requires { 280 ≤ length bits.now }
    ensures { result ≡ depth_from 264 bits.now }
{
    u16::from_be_bytes([byte_at(bits, 33), byte_at(bits, 34)])
}

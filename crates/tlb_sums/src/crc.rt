//! A byte of the message at a time, by a table of what each byte leaves in the register.
ghost use Rattle.std.specs.Prelude.{◌≡◌, ℕ};
ghost use Rattle.tlb_sums.specs.Crc.{crc_of, crc32_of, crc32c_of, table_of};

use crate::tables::{CRC32, CRC32C};

/// The CRC-32 of `bytes`, as Ethernet (IEEE 802.3) and RFC 1952 have it.
pub fn crc32(bytes: &[u8]) -> u32
    ensures { result ≡ crc32_of bytes.now }
{
    crc_by_table(&CRC32, bytes)
}

/// The CRC-32C of `bytes`, as RFC 3720 has it.
pub fn crc32c(bytes: &[u8]) -> u32
    ensures { result ≡ crc32c_of bytes.now }
{
    crc_by_table(&CRC32C, bytes)
}

// The CRC of `bytes` by the polynomial that the table is made from.
fn crc_by_table(table: &[u32; 256], bytes: &[u8]) -> u32
    ensures { (polynomial : ℕ) → table.now ≡ table_of polynomial → result ≡ crc_of polynomial bytes.now }
{
    let mut register = u32::MAX;
    for byte in bytes {
        let place = (register ^ u32::from(*byte)) & 0xff;
        register = (register >> 8) ^ table[place as usize];
    }
    register ^ u32::MAX
}

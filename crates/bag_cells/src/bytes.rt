//! Numbers in bytes.
ghost use Rattle.std.specs.Prelude.{◌≡◌, ◌≤◌, ◌+◌, length};
ghost use Rattle.bag_cells.specs.Numbers.{number_at, little_endian};

/// The big-endian number of `width` bytes.
pub(crate) fn number_at(bytes: &[u8], from: usize, width: usize) -> u64
    requires wide { width ≤ 8 }
    requires within { from + width ≤ length bytes.now }
    ensures { result ≡ number_at bytes.now from width }
{
    let mut value: u64 = 0;
    'bytes: for i in 0..width {
        value = 256 * value + u64::from(bytes[from + i]);
    }
    value
}

/// The little-endian number of 4 bytes.
#[tactic(auto, unfolding(crate::specs::Numbers::little_endian))]
pub(crate) fn little_endian(bytes: &[u8], from: usize) -> u32
    requires { from + 4 ≤ length bytes.now }
    ensures { result ≡ little_endian bytes.now from }
{
    u32::from(bytes[from])
        + 256 * u32::from(bytes[from + 1])
        + 65536 * u32::from(bytes[from + 2])
        + 16_777_216 * u32::from(bytes[from + 3])
}

//! Hashes 250,000 representations of 100 data bytes and two children, each with the hash before as the
//! children's, and prints the last hash.
#![tactic(auto)]

ghost use Rattle.std.specs.Prelude.{◌≡◌};
ghost use Rattle.hash_bench.specs.Chain.{chained};

use bit_slice::{BitSlice, BitString};
use cell_hash::{ChildMark, Content, descriptor, hash_parts};
use std::io;

const STEPS: u32 = 250_000;

fn main(rt: HostRuntime) -> io::Result<()> {
    let Ok(bits) = BitString::from_bytes(rt.alloc(), &[0x5a; 100], 800) else {
        return println!(rt; "no memory");
    };
    for byte in chained_hash(bits.slice(), STEPS) {
        print!(rt; "{byte:02x}")?;
    }
    println!(rt; "")
}

// The hash after `steps` steps over the same data.
fn chained_hash(bits: BitSlice<'_>, steps: u32) -> [u8; 32]
    ensures { result ≡ chained bits.entry steps }
{
    let mut hash = [0u8; 32];
    let d = descriptor(2, false, 0, bits.len());
    'steps: for step in 0..steps {
        let child = ChildMark { depth: 1, hash };
        hash = hash_parts(d, Content::Data(bits.again()), &[child, child]);
    }
    hash
}

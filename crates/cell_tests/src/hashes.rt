//! Sums that RFC 3720 and the catalogues of such sums give, and SHA-256 of representations by Python's hashlib.
use crate::bits::bits;
use cell_hash::{ChildMark, Content, descriptor, hash_parts};
use std::alloc::Global;
use tlb_sums::{crc32, crc32c};

/// Whether bytes have these lower-case hexadecimal digits.
pub(crate) fn has_digits(alloc: Global, bytes: &[u8], digits: &str) -> bool {
    match hex::encode(alloc, bytes) {
        Ok(found) => found.as_str() == digits,
        Err(_) => false,
    }
}

// The check value of the catalogues of such sums, and four messages of RFC 3720, appendix B.4.
#[test]
fn known_messages_have_their_sums(rt: HostRuntime) {
    let mut rising = [0u8; 32];
    let mut falling = [0u8; 32];
    for i in 0..32u8 {
        rising[i as usize] = i;
        falling[i as usize] = 31 - i;
    }
    assert!(rt; crc32c(b"123456789") == 0xe306_9283 && crc32c(b"") == 0);
    assert!(rt; crc32(b"123456789") == 0xcbf4_3926 && crc32(b"") == 0);
    assert!(rt; crc32(b"a = A") == 0x7aae_25b9);
    assert!(rt; crc32c(&[0; 32]) == 0x8a91_36aa && crc32c(&[0xff; 32]) == 0x62a8_ab43);
    assert!(rt; crc32c(&rising) == 0x46dd_794e && crc32c(&falling) == 0x113f_db5c);
}

// The SHA-256 of 00 00, and of 00 03 b3 b0.
static DATA: [(u8, &str, &str); 2] = [
    (
        0,
        "",
        "96a296d224f285c67bee93c30f8a309157f0daa35dc5b87e410b78630a09cfc7",
    ),
    (
        3,
        "B3B_",
        "4b42888f96031b58a96bcaf0775ba762839c49b61a856068ab008fc22bbfa967",
    ),
];

#[test]
fn known_cells_have_their_hashes(rt: HostRuntime) {
    assert!(rt; descriptor(0, false, 0, 0) == (0, 0) && descriptor(2, false, 0, 8) == (2, 2));
    assert!(rt; descriptor(1, false, 1, 12) == (33, 3) && descriptor(1, true, 0, 280) == (9, 70));
    assert!(rt; descriptor(4, true, 1, 1023) == (44, 255));
    for (second, data, digits) in DATA.iter() {
        let data = bits(&rt, rt.alloc(), data);
        let hash = hash_parts((0, *second), Content::Data(data.slice()), &[]);
        assert!(rt; has_digits(rt.alloc(), &hash, digits));
    }
}

// The SHA-256 of 02 02 ab, the depths 00 00 and 01 02, and 32 bytes 11 and 32 bytes 22; and of 22 02, 32 bytes 77, and
// the same depths and hashes.
const OVER_DATA: &str = "7f54a1c87970f69b1e8ceb5dc37021a330cdb871e1a8e885d41a5f2884be65f5";

const OVER_PREVIOUS: &str = "d516c1bc1b589d7f37b5301c3e704bf2f0fb174f18bd3d3c198ce05578748336";

#[test]
fn children_give_their_depths_and_then_their_hashes(rt: HostRuntime) {
    let children = [
        ChildMark {
            depth: 0,
            hash: [0x11; 32],
        },
        ChildMark {
            depth: 258,
            hash: [0x22; 32],
        },
    ];
    let data = bits(&rt, rt.alloc(), "AB");
    let hash = hash_parts((2, 2), Content::Data(data.slice()), &children);
    assert!(rt; has_digits(rt.alloc(), &hash, OVER_DATA));
    let hash = hash_parts((34, 2), Content::Previous([0x77; 32]), &children);
    assert!(rt; has_digits(rt.alloc(), &hash, OVER_PREVIOUS));
}

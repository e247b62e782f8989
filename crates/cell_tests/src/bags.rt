//! Bags that are written. The expected ones come from a writer in Python, which knows the format alone; of the long
//! ones the length and the CRC-32C are compared.
ghost use Rattle.std.specs.Prelude.{◌≤◌};

use crate::cells::cell;
use crate::hashes::has_digits;
use bag_cells::write_bag;
use bit_slice::BitString;
use cell_nodes::Cell;
use cell_pool::Pool;
use std::alloc::Global;
use std::process::Abort;
use tlb_sums::crc32c;

fn written(rt: &impl Abort, alloc: Global, cell: &Cell) -> Vec<u8> {
    assert!(rt; cell.unfolded() <= 262_144);
    let mut pool = Pool::new(alloc).expect(rt, "memory");
    let root = pool.intern(cell).expect(rt, "memory");
    assert!(rt; root.number() < pool.count());
    write_bag(alloc, &pool, root).expect(rt, "memory")
}

// A bag, and the one that is written. Nine are written as they are: of the empty cell; a cell of one bit; a map of one
// entry; a map of four entries; a proof; a cell over a branch; a library cell beside an ordinary one of the same bits;
// cells of 7 and of 8 bits; equal bits over unequal cells. In the last three there are equal cells, a cell that the
// root doesn't reach, and cells in another order than that of first completion.
static BAGS: [(&str, &str); 12] = [
    ("b5ee9c72010101010002000000", "b5ee9c72010101010002000000"),
    (
        "b5ee9c7201010101000300000140",
        "b5ee9c7201010101000300000140",
    ),
    (
        "b5ee9c72010102010009000101c0010005a00416",
        "b5ee9c72010102010009000101c0010005a00416",
    ),
    (
        "b5ee9c72010108010023000101c0010201200502020120040300030120000300e00201200706000300a000030060",
        "b5ee9c72010108010023000101c0010201200502020120040300030120000300e00201200706000300a000030060",
    ),
    (
        "b5ee9c720101020100280009460396a296d224f285c67bee93c30f8a309157f0daa35dc5b87e410b78630a09cfc70000010000",
        "b5ee9c720101020100280009460396a296d224f285c67bee93c30f8a309157f0daa35dc5b87e410b78630a09cfc70000010000",
    ),
    (
        "b5ee9c72010102010029002100012848010100000000000000000000000000000000000000000000000000000000000000000000",
        "b5ee9c72010102010029002100012848010100000000000000000000000000000000000000000000000000000000000000000000",
    ),
    (
        "b5ee9c7201010301004a000200020100420200000000000000000000000000000000000000000000000000000000000000000842020000000000000000000000000000000000000000000000000000000000000000",
        "b5ee9c7201010301004a000200020100420200000000000000000000000000000000000000000000000000000000000000000842020000000000000000000000000000000000000000000000000000000000000000",
    ),
    (
        "b5ee9c7201010301000a0002000201000201000101",
        "b5ee9c7201010301000a0002000201000201000101",
    ),
    (
        "b5ee9c720101050100130003000301030102070200020201020704000201",
        "b5ee9c720101050100130003000301030102070200020201020704000201",
    ),
    (
        "b5ee9c7201010401000d0100020702000203000205000205",
        "b5ee9c720101020100070002000101000205",
    ),
    (
        "b5ee9c7201010401000c00020001020002050002050000",
        "b5ee9c720101020100070002000101000205",
    ),
    (
        "b5ee9c720101040100110003020b02010302020a0302000202000201",
        "b5ee9c720101040100110003020b03010202020a0203000201000202",
    ),
];

#[test]
fn bags_are_written_in_the_least_form(rt: HostRuntime) {
    for (bag, least) in BAGS.iter() {
        let root = cell(&rt, rt.alloc(), bag);
        let found = written(&rt, rt.alloc(), &root);
        assert!(rt; has_digits(rt.alloc(), found.as_slice(), least), "{bag}");
    }
}

fn link(rt: &impl Abort, alloc: Global, bytes: &[u8; 126], width: u32, children: &[Cell]) -> Cell
    requires { width ≤ 126 }
{
    let bits = BitString::from_bytes(alloc, bytes, 8 * width).expect(rt, "memory");
    assert!(rt; children.len() <= 4);
    Cell::ordinary(alloc, bits, children)
        .ok()
        .expect(rt, "a cell")
}

// A chain of cells that begin with their number; the last one is the root.
fn chain(rt: &impl Abort, alloc: Global, cells: u16, width: u32, root_width: u32) -> Cell
    requires width { width ≤ 126 }
    requires root_width { root_width ≤ 126 }
{
    let mut bytes = [0u8; 126];
    let mut cell = link(rt, alloc, &bytes, width, &[]);
    for i in 1..cells {
        [bytes[0], bytes[1]] = i.to_be_bytes();
        let count = if i + 1 < cells { width } else { root_width };
        cell = link(rt, alloc, &bytes, count, &[cell]);
    }
    cell
}

// The least sizes, where the number of cells and the length of the cell data pass a power of 256.
static CHAINS: [(u16, u32, u32, usize, u32); 7] = [
    (255, 2, 2, 1286, 0x1b1d_8848),
    (256, 2, 2, 1550, 0x30fe_26d5),
    (257, 2, 2, 1556, 0xc4b5_03b8),
    (2, 125, 125, 266, 0x55ed_53bd),
    (2, 125, 126, 268, 0x5ae6_86a8),
    (512, 124, 125, 65551, 0xbe48_170b),
    (512, 124, 126, 65553, 0x21b8_79f5),
];

#[test]
fn sizes_are_the_least(rt: HostRuntime) {
    for (cells, width, root_width, length, sum) in CHAINS.iter() {
        assert!(rt; *width <= 126 && *root_width <= 126);
        let root = chain(&rt, rt.alloc(), *cells, *width, *root_width);
        let bag = written(&rt, rt.alloc(), &root);
        assert!(rt; bag.len() == *length && crc32c(bag.as_slice()) == *sum);
    }
}

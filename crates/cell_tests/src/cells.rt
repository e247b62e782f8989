//! What cells report. Their hashes are those that Python's hashlib gives for representations written out by hand.
ghost use Rattle.std.specs.Prelude.{◌≤◌, length};

use crate::bits::bits;
use crate::hashes::has_digits;
use bag_cells::read_bag;
use cell_nodes::{Cell, CellBuilder, Kind, exotic_kind};
use std::alloc::Global;
use std::process::Abort;

/// The cell that a bag holds, which is given by its digits.
pub(crate) fn cell(rt: &impl Abort, alloc: Global, bag: &str) -> Cell {
    read_bag(alloc, bag.as_bytes()).ok().expect(rt, "a cell")
}

/// An ordinary cell without bits.
pub(crate) fn over(rt: &impl Abort, alloc: Global, children: &[Cell]) -> Cell
    requires { length children.now ≤ 4 }
{
    Cell::ordinary(alloc, bits(rt, alloc, ""), children)
        .ok()
        .expect(rt, "a cell")
}

/// A bag, and of its root the number of references, the size of its tree, and depth and hash at the levels 0 to 2.
struct Row {
    bag: &'static str,
    kind: Kind,
    mask: u8,
    refs: u32,
    unfolded: u32,
    depths: [u16; 3],
    hashes: [&'static str; 3],
}

// 0 to 4: the empty cell, a library cell, a branch of mask 1, an ordinary cell over that branch and the library cell,
// and a proof of an ordinary cell over the branch.
// 5 and 6: a branch of mask 2, which stores 32 bytes 22 and the depth 2, and one of mask 3, which stores 32 bytes 33
// and 32 bytes 44, and the depths 3 and 4.
// 7 to 11: an ordinary cell without bits over those two, the branch that stands for it below one proof, a proof of each
// of the two, and an update from the first to the second.
// A hash is that of the two descriptor bytes, the data, and the depths and then the hashes of the children; above the
// lowest level the hash one level lower stands in place of the data, and below a proof or an update a child's level is
// one higher.
static ROWS: [Row; 12] = [
    Row {
        bag: "b5ee9c72010101010002000000",
        kind: Kind::Ordinary,
        mask: 0,
        refs: 0,
        unfolded: 1,
        depths: [0, 0, 0],
        hashes: [
            "96a296d224f285c67bee93c30f8a309157f0daa35dc5b87e410b78630a09cfc7",
            "96a296d224f285c67bee93c30f8a309157f0daa35dc5b87e410b78630a09cfc7",
            "96a296d224f285c67bee93c30f8a309157f0daa35dc5b87e410b78630a09cfc7",
        ],
    },
    Row {
        bag: "b5ee9c7201010101002300084202101112131415161718191a1b1c1d1e1f202122232425262728292a2b2c2d2e2f",
        kind: Kind::Library,
        mask: 0,
        refs: 0,
        unfolded: 1,
        depths: [0, 0, 0],
        hashes: [
            "e9b0066ce865e7ae6a61d7190795f060f21c5a73ea876759a046f636cb136dc4",
            "e9b0066ce865e7ae6a61d7190795f060f21c5a73ea876759a046f636cb136dc4",
            "e9b0066ce865e7ae6a61d7190795f060f21c5a73ea876759a046f636cb136dc4",
        ],
    },
    Row {
        bag: "b5ee9c720101010100260028480101101112131415161718191a1b1c1d1e1f202122232425262728292a2b2c2d2e2f0007",
        kind: Kind::Pruned,
        mask: 1,
        refs: 0,
        unfolded: 1,
        depths: [7, 0, 0],
        hashes: [
            "101112131415161718191a1b1c1d1e1f202122232425262728292a2b2c2d2e2f",
            "8b823aa7858411f7db25cb2768f2cad2431b49558f4308d2e7152a6aa6d52cb4",
            "8b823aa7858411f7db25cb2768f2cad2431b49558f4308d2e7152a6aa6d52cb4",
        ],
    },
    Row {
        bag: "b5ee9c7201010301004e002202ab010228480101101112131415161718191a1b1c1d1e1f202122232425262728292a2b2c2d2e2f0007084202101112131415161718191a1b1c1d1e1f202122232425262728292a2b2c2d2e2f",
        kind: Kind::Ordinary,
        mask: 1,
        refs: 2,
        unfolded: 3,
        depths: [8, 1, 1],
        hashes: [
            "78c977499de25af4f91c6715229d87c7e527e1af0d1973c10cd4df91cb2bd4d9",
            "6ce7f12f8ba7a73fa1b85f1e8bcbf4fb697e5c721f0d0d7fb139569b8ce854c5",
            "6ce7f12f8ba7a73fa1b85f1e8bcbf4fb697e5c721f0d0d7fb139569b8ce854c5",
        ],
    },
    Row {
        bag: "b5ee9c720101030100500009460367b902b30800bea9a97cbae283e3d37636a8ccad2ee16c791c1283781aceab8c0008012102ab0228480101101112131415161718191a1b1c1d1e1f202122232425262728292a2b2c2d2e2f0007",
        kind: Kind::Proof,
        mask: 0,
        refs: 1,
        unfolded: 3,
        depths: [2, 2, 2],
        hashes: [
            "571d925be84179f0e88cc1af6d1d4a95f31702f1b606787cf2770f9c3013d76f",
            "571d925be84179f0e88cc1af6d1d4a95f31702f1b606787cf2770f9c3013d76f",
            "571d925be84179f0e88cc1af6d1d4a95f31702f1b606787cf2770f9c3013d76f",
        ],
    },
    Row {
        bag: "b5ee9c72010101010026004848010222222222222222222222222222222222222222222222222222222222222222220002",
        kind: Kind::Pruned,
        mask: 2,
        refs: 0,
        unfolded: 1,
        depths: [2, 2, 0],
        hashes: [
            "2222222222222222222222222222222222222222222222222222222222222222",
            "2222222222222222222222222222222222222222222222222222222222222222",
            "4025f44fcbbde16ac425d74d3663677d36ca13710da4935d0f363960d1101e1f",
        ],
    },
    Row {
        bag: "b5ee9c7201010101004800688c01033333333333333333333333333333333333333333333333333333333333333333444444444444444444444444444444444444444444444444444444444444444400030004",
        kind: Kind::Pruned,
        mask: 3,
        refs: 0,
        unfolded: 1,
        depths: [3, 4, 0],
        hashes: [
            "3333333333333333333333333333333333333333333333333333333333333333",
            "4444444444444444444444444444444444444444444444444444444444444444",
            "332a28f393fc4041c8d6def7b9afb0a52b6e3e6c6b186aa7f20b1a989a0ac401",
        ],
    },
    Row {
        bag: "b5ee9c720101030100720062000201688c010333333333333333333333333333333333333333333333333333333333333333334444444444444444444444444444444444444444444444444444444444444444000300044848010222222222222222222222222222222222222222222222222222222222222222220002",
        kind: Kind::Ordinary,
        mask: 3,
        refs: 2,
        unfolded: 3,
        depths: [4, 5, 1],
        hashes: [
            "a74d4d05e9a4d51b8545e1ce72f94fb96e1964d3476c4243d9b8286f34028128",
            "57723ebb59549af580f24925be345efaba532310ac3ec4c50a09912290c01fe5",
            "672ad0fe458349a284ef735c8bf1eebfc7dfe7148f6b6bf48a3933c9a20ed7a2",
        ],
    },
    Row {
        bag: "b5ee9c7201010101004800688c0103a74d4d05e9a4d51b8545e1ce72f94fb96e1964d3476c4243d9b8286f3402812857723ebb59549af580f24925be345efaba532310ac3ec4c50a09912290c01fe500040005",
        kind: Kind::Pruned,
        mask: 3,
        refs: 0,
        unfolded: 1,
        depths: [4, 5, 0],
        hashes: [
            "a74d4d05e9a4d51b8545e1ce72f94fb96e1964d3476c4243d9b8286f34028128",
            "57723ebb59549af580f24925be345efaba532310ac3ec4c50a09912290c01fe5",
            "dfbaf52666aeaa534d4b5b82914bd4bb99312ee5ba485939a5ab1893e024542b",
        ],
    },
    Row {
        bag: "b5ee9c7201010201004c0029460322222222222222222222222222222222222222222222222222222222222222220002014848010222222222222222222222222222222222222222222222222222222222222222220002",
        kind: Kind::Proof,
        mask: 1,
        refs: 1,
        unfolded: 2,
        depths: [3, 1, 1],
        hashes: [
            "30634edd33aa9717630f957e19664ae4b406f83cf12de400072c040fd0833596",
            "5f7d525a14a39551a78ecc730d9a658173affe44c51aa2ac3c42d3924aa897aa",
            "5f7d525a14a39551a78ecc730d9a658173affe44c51aa2ac3c42d3924aa897aa",
        ],
    },
    Row {
        bag: "b5ee9c7201010201006e002946033333333333333333333333333333333333333333333333333333333333333333000301688c01033333333333333333333333333333333333333333333333333333333333333333444444444444444444444444444444444444444444444444444444444444444400030004",
        kind: Kind::Proof,
        mask: 1,
        refs: 1,
        unfolded: 2,
        depths: [5, 1, 1],
        hashes: [
            "0d1f1cceefbbf2fb3bbf2eec920429e7f790d00c2ad1250d55d9f4a93d25ccea",
            "c873a48bff63618d5657aa896c18f01cad1c8358bac05a5698edee9dee5d180c",
            "c873a48bff63618d5657aa896c18f01cad1c8358bac05a5698edee9dee5d180c",
        ],
    },
    Row {
        bag: "b5ee9c720101030100b7002a8a0422222222222222222222222222222222222222222222222222222222222222223333333333333333333333333333333333333333333333333333333333333333000200030201688c010333333333333333333333333333333333333333333333333333333333333333334444444444444444444444444444444444444444444444444444444444444444000300044848010222222222222222222222222222222222222222222222222222222222222222220002",
        kind: Kind::Update,
        mask: 1,
        refs: 2,
        unfolded: 3,
        depths: [5, 1, 1],
        hashes: [
            "6a67998b15bbb305a69c29cf653d26e5141547727744bf895357b007c04d2688",
            "eab99a77280e45d88c76ecbfd9d96a6115b587a953119d543c53a048e4052ad5",
            "eab99a77280e45d88c76ecbfd9d96a6115b587a953119d543c53a048e4052ad5",
        ],
    },
];

fn is_as_told(rt: &impl Abort, alloc: Global, made: Option<Cell>, row: &Row) -> bool {
    let cell = made.expect(rt, "a cell");
    cell.kind() == row.kind
        && cell.mask() == row.mask
        && cell.refs() == row.refs
        && cell.unfolded() == row.unfolded
        && cell.depth(0) == row.depths[0]
        && cell.depth(1) == row.depths[1]
        && cell.depth(2) == row.depths[2]
        && has_digits(alloc, &cell.hash(0), row.hashes[0])
        && has_digits(alloc, &cell.hash(1), row.hashes[1])
        && has_digits(alloc, &cell.hash(2), row.hashes[2])
}

#[test]
fn cells_tell_their_trees(rt: HostRuntime) {
    for row in ROWS.iter() {
        let cell = cell(&rt, rt.alloc(), row.bag);
        assert!(rt; is_as_told(&rt, rt.alloc(), Some(cell), row), "{}", row.bag);
    }
}

#[test]
fn references_are_gone_through(rt: HostRuntime) {
    let root = cell(&rt, rt.alloc(), ROWS[3].bag);
    let content = root.content();
    assert!(rt; content.bits.len() == 8 && root.bits().number(8) == Some(0xab));
    assert!(rt; content.refs.again().len() == 2);
    let (first, rest) = content.refs.first().expect(&rt, "a reference");
    assert!(rt; first.kind() == Kind::Pruned && rest.len() == 1);
    assert!(rt; root.child(2).is_none());
    let last = root.child(1).expect(&rt, "a reference");
    assert!(rt; last.kind() == Kind::Library);
}

// The bits of the library cell.
const LIBRARY: &str = "02101112131415161718191A1B1C1D1E1F202122232425262728292A2B2C2D2E2F";

#[test]
fn exotic_cells_are_made_of_their_layouts(rt: HostRuntime) {
    let data = bits(&rt, rt.alloc(), LIBRARY);
    let kind = exotic_kind(data.slice(), 0).expect(&rt, "a layout");
    assert!(rt; kind == Kind::Library && exotic_kind(data.slice(), 1).is_none());
    assert!(rt; Cell::mask_of(kind, data.slice(), &[]) == 0);
    let made = Cell::of_kind(rt.alloc(), kind, data, &[]).ok();
    assert!(rt; is_as_told(&rt, rt.alloc(), made, &ROWS[1]));
    let made = Cell::exotic(rt.alloc(), bits(&rt, rt.alloc(), LIBRARY), &[]).ok();
    assert!(rt; is_as_told(&rt, rt.alloc(), made, &ROWS[1]));
}

#[test]
fn branches_and_library_cells_store_what_they_are_given(rt: HostRuntime) {
    let branch = cell(&rt, rt.alloc(), ROWS[2].bag);
    let hidden = branch.hidden().expect(&rt, "a branch");
    let made = Cell::pruned(rt.alloc(), &hidden.hash, hidden.depth).ok();
    assert!(rt; is_as_told(&rt, rt.alloc(), made, &ROWS[2]));
    let made = Cell::library(rt.alloc(), &hidden.hash).ok();
    assert!(rt; is_as_told(&rt, rt.alloc(), made, &ROWS[1]));
}

#[test]
fn proofs_and_updates_stand_over_cells_of_higher_levels(rt: HostRuntime) {
    let first = cell(&rt, rt.alloc(), ROWS[5].bag);
    let second = cell(&rt, rt.alloc(), ROWS[6].bag);
    assert!(rt; first.level() == 2 && first.hidden().is_none());
    let made = Cell::proof(rt.alloc(), &second).ok();
    assert!(rt; is_as_told(&rt, rt.alloc(), made, &ROWS[10]));
    let made = Cell::update(rt.alloc(), &first, &second).ok();
    assert!(rt; is_as_told(&rt, rt.alloc(), made, &ROWS[11]));
}

// The empty cell's own hash and depth at level 1; below one proof, those of both levels of a cell of mask 3.
#[test]
fn a_branch_stands_for_a_cell(rt: HostRuntime) {
    let empty = cell(&rt, rt.alloc(), ROWS[0].bag);
    let branch = Cell::pruned_at(rt.alloc(), &empty, 1).expect(&rt, "memory");
    let same = Cell::pruned(rt.alloc(), &empty.hash(0), 0).ok();
    let same = same.expect(&rt, "a cell");
    assert!(rt; branch.bits().same(same.bits()) && branch.hidden() == same.hidden());
    let both = cell(&rt, rt.alloc(), ROWS[7].bag);
    let made = Cell::pruned_at(rt.alloc(), &both, 2).ok();
    assert!(rt; is_as_told(&rt, rt.alloc(), made, &ROWS[8]));
}

// The SHA-256 of 01 05, b4 bb 57, the depth 00 00 and the hash of the empty cell.
const BUILT: &str = "cba0754e83218be1c05aaf07a51322f9bdfe0ad7d73fac36ebaed73c4a32a28c";

// 101 10100101 1101 10101011, and a reference to the empty cell.
#[test]
fn a_cell_is_built_from_bits_and_references(rt: HostRuntime) {
    let mut builder = CellBuilder::new(rt.alloc()).expect(&rt, "memory");
    builder.push_number(5, 3).ok().expect(&rt, "room");
    builder.push_number(165, 8).ok().expect(&rt, "room");
    builder.push_signed(-3, 4).ok().expect(&rt, "room");
    let data = bits(&rt, rt.alloc(), "AB");
    builder.push_bits(data.slice()).ok().expect(&rt, "room");
    let child = over(&rt, rt.alloc(), &[]);
    builder.push_ref(child).ok().expect(&rt, "room");
    assert!(rt; builder.content().bits.len() == 23 && builder.content().refs.len() == 1);
    let built = builder.finish(rt.alloc()).expect(&rt, "memory");
    assert!(rt; has_digits(rt.alloc(), &built.hash(0), BUILT));
}

#[test]
fn a_thousand_levels_of_two_equal_children_are_made(rt: HostRuntime) {
    let mut cell = over(&rt, rt.alloc(), &[]);
    for _ in 0..1000u32 {
        let twin = cell.share().expect(&rt, "memory");
        cell = over(&rt, rt.alloc(), &[twin, cell]);
    }
    assert!(rt; cell.depth(0) == 1000 && cell.unfolded() == 262_145);
}

#[test]
fn a_chain_of_1024_is_the_deepest(rt: HostRuntime) {
    let mut cell = over(&rt, rt.alloc(), &[]);
    for _ in 0..1024u32 {
        cell = over(&rt, rt.alloc(), &[cell]);
    }
    assert!(rt; cell.depth(0) == 1024 && cell.unfolded() == 1025);
    assert!(rt; Cell::ordinary(rt.alloc(), bits(&rt, rt.alloc(), ""), &[cell]).is_err());
}

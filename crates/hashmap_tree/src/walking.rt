//! Walks a dictionary in cells.
ghost use Rattle.std.specs.Prelude.{◌≡◌, ℕ, suc, ◌<◌, ◌≤◌, ◌++◌, List, IfOk};
ghost use Rattle.hashmap_tree.specs.Adds.{Adds, GivesEdge, GivesWalk, Means, OnlyMemory, slice_of};
ghost use Rattle.hashmap_tree.specs.First as first;
ghost use Rattle.hashmap_tree.specs.Top as tops;
ghost use Rattle.hashmap_tree.specs.Walk as plain;

use crate::edges::{
    cause_of, empty, hide, joined, label_of, leaf, stuck, stuck_first, unseen, with_bit,
};
use crate::found::{Found, Walk, WalkCause, WalkError};
use bit_slice::{BitSlice, BitString};
use cell_nodes::{Cell, CellSlice, Kind, Mode, RefSlice};
use std::alloc::Global;

/// An edge for keys of `n` more bits.
#[cycle(walk)]
fn edge<'a>(
    alloc: Global,
    prefix: &BitString,
    s: CellSlice<'a>,
    n: u32,
    mode: Mode,
    found: &mut Found<'a>,
) -> Result<(), WalkError>
    requires { n ≤ 1023 }
    ensures { (f : ℕ) → n < suc f
        → Adds prefix.now found.old found.new result (plain.walk (suc f) mode n (slice_of s.entry)) }
{
    let CellSlice { bits, refs } = s;
    match label_of(bits, n, mode) {
        Err(e) => Err(stuck(alloc, prefix, cause_of(e))),
        Ok((label, rest)) => {
            let key = joined(alloc, prefix, &label)?;
            let len = label.len();
            if n == len {
                return leaf(key, CellSlice { bits: rest, refs }, found);
            }
            forks(alloc, prefix, &key, rest, refs, n - len - 1, mode, found)
        }
    }
}

/// A fork after its label.
#[cycle(walk)]
fn forks<'a>(
    alloc: Global,
    prefix: &BitString,
    key: &BitString,
    rest: BitSlice<'a>,
    refs: RefSlice<'a>,
    m: u32,
    mode: Mode,
    found: &mut Found<'a>,
) -> Result<(), WalkError>
    requires { m ≤ 1023 }
    ensures { (f : ℕ) (p : List ℕ) → m < f → key.now ≡ prefix.now ++ p
        → Adds prefix.now found.old found.new result (plain.forks (plain.walk f mode) mode m p rest.entry refs.entry) }
{
    let Some((zero, refs)) = refs.first() else {
        return Err(stuck(alloc, prefix, WalkCause::ShortRefs));
    };
    let Some((one, refs)) = refs.first() else {
        return Err(stuck(alloc, prefix, WalkCause::ShortRefs));
    };
    if rest.len() != 0 || refs.len() != 0 {
        return Err(stuck(alloc, prefix, WalkCause::Leftover));
    }
    branches(alloc, prefix, key, zero, one, m, mode, found)
}

/// Both parts of a fork, in order.
#[cycle(walk)]
fn branches<'a>(
    alloc: Global,
    prefix: &BitString,
    key: &BitString,
    zero: &'a Cell,
    one: &'a Cell,
    m: u32,
    mode: Mode,
    found: &mut Found<'a>,
) -> Result<(), WalkError>
    requires { m ≤ 1023 }
    ensures { (f : ℕ) (p : List ℕ) → m < f → key.now ≡ prefix.now ++ p
        → Adds prefix.now found.old found.new result (plain.branches (plain.walk f mode) mode m p zero.now one.now) }
{
    let left = with_bit(alloc, key, false)?;
    branch(alloc, &left, zero, m, mode, found)?;
    let right = with_bit(alloc, key, true)?;
    branch(alloc, &right, one, m, mode, found)
}

/// The cell of an edge, or a hidden part.
#[cycle(walk)]
fn branch<'a>(
    alloc: Global,
    prefix: &BitString,
    cell: &'a Cell,
    m: u32,
    mode: Mode,
    found: &mut Found<'a>,
) -> Result<(), WalkError>
    requires { m ≤ 1023 }
    ensures { (f : ℕ) → m < f
        → Adds prefix.now found.old found.new result (plain.branch (plain.walk f mode) mode m cell.now) }
{
    match unseen(cell, mode) {
        Some(hidden) => return hide(alloc, prefix, hidden, found),
        None => {}
    }
    match cell.kind() {
        Kind::Ordinary => edge(alloc, prefix, cell.content(), m, mode, found),
        Kind::Pruned => Err(stuck(alloc, prefix, WalkCause::Exotic)),
        Kind::Library => Err(stuck(alloc, prefix, WalkCause::Exotic)),
        Kind::Proof => Err(stuck(alloc, prefix, WalkCause::Exotic)),
        Kind::Update => Err(stuck(alloc, prefix, WalkCause::Exotic)),
    }
}

/// Whether bits or references are left.
#[tactic(auto, using(crate::specs::TopLaws::left_laws))]
fn some_left(bits: &BitSlice<'_>, refs: &RefSlice<'_>) -> bool
    ensures { result ≡ tops.some_left bits.now refs.now }
{
    if bits.len() != 0 {
        return true;
    }
    refs.len() != 0
}

/// A first edge that is a leaf: its value goes on in place.
fn leaf_in_place<'a>(
    alloc: Global,
    key: BitString,
    bits: BitSlice<'a>,
    refs: RefSlice<'a>,
) -> Result<Walk<'a>, WalkError>
    ensures ok { IfOk result (λ w. GivesEdge w (first.at_leaf key (record { bits = bits.entry; refs = refs.entry }))) }
    ensures err { OnlyMemory result }
{
    let mut pairs = Vec::new(alloc);
    let value = CellSlice {
        bits: bits.again(),
        refs: refs.again(),
    };
    match pairs.push((key, value)) {
        Err(_) => Err(WalkError::NoMemory),
        Ok(()) => Ok(Walk {
            pairs,
            unknown: Vec::new(alloc),
            rest: CellSlice { bits, refs },
            inline: true,
        }),
    }
}

/// A first edge that is a fork, after its label and its two references.
fn fork_in_place<'a>(
    alloc: Global,
    key: &BitString,
    parts: (&'a Cell, &'a Cell),
    rest: CellSlice<'a>,
    m: u32,
    mode: Mode,
) -> Result<Walk<'a>, WalkError>
    requires { m ≤ 1023 }
    ensures { (f : ℕ) → m < f
        → GivesWalk result
        (tops.pair_edge (plain.walk f mode) mode m key.now parts.entry.0.now parts.entry.1.now (slice_of rest.entry)) }
{
    let mut found = Found {
        pairs: Vec::new(alloc),
        unknown: Vec::new(alloc),
    };
    let prefix = empty(alloc)?;
    branches(alloc, &prefix, key, parts.0, parts.1, m, mode, &mut found)?;
    let Found { pairs, unknown } = found;
    Ok(Walk {
        pairs,
        unknown,
        rest,
        inline: false,
    })
}

/// What stands after the label of a first edge that is a fork.
fn fork_of<'a>(
    alloc: Global,
    key: &BitString,
    rest: BitSlice<'a>,
    refs: RefSlice<'a>,
    m: u32,
    mode: Mode,
    closed: bool,
) -> Result<Walk<'a>, WalkError>
    requires { m ≤ 1023 }
    ensures { (f : ℕ) → m < f
        → GivesWalk result (tops.top_fork closed (plain.walk f mode) mode m key.now rest.entry refs.entry) }
{
    let Some((zero, refs)) = refs.first() else {
        return Err(stuck_first(alloc, WalkCause::ShortRefs));
    };
    let Some((one, refs)) = refs.first() else {
        return Err(stuck_first(alloc, WalkCause::ShortRefs));
    };
    if closed && some_left(&rest, &refs) {
        return Err(stuck_first(alloc, WalkCause::Leftover));
    }
    fork_in_place(
        alloc,
        key,
        (zero, one),
        CellSlice { bits: rest, refs },
        m,
        mode,
    )
}

/// The entries of a dictionary with keys of `n` bits, with what is left after it. `closed` says that the slice is the
/// whole content of a cell.
///
/// It looks at each cell once and copies the key bits before it, and goes down at most `n + 1` edges by recursion.
pub fn walk<'a>(
    alloc: Global,
    s: CellSlice<'a>,
    n: u32,
    mode: Mode,
    closed: bool,
) -> Result<Walk<'a>, WalkError>
    requires { n ≤ 1023 }
    ensures { Means closed mode n (slice_of s.entry) result }
{
    let CellSlice { bits, refs } = s;
    match label_of(bits, n, mode) {
        Err(e) => Err(stuck_first(alloc, cause_of(e))),
        Ok((label, rest)) => {
            let prefix = empty(alloc)?;
            let key = joined(alloc, &prefix, &label)?;
            let len = label.len();
            if n == len {
                return leaf_in_place(alloc, key, rest, refs);
            }
            fork_of(alloc, &key, rest, refs, n - len - 1, mode, closed)
        }
    }
}

//! Dictionaries as values: whether their keys and hidden parts fit, and their trees.
ghost use Rattle.std.specs.Prelude.{◌≡◌, ◌≤◌, ◌++◌, ◌∷◌, [], IfOk, OnOk, map};
ghost use Rattle.building.specs.MapTests as tests;
ghost use Rattle.building.specs.PlainBuilder as plain;
ghost use Rattle.cell_nodes.specs.declared.tree.Mode.{Mode as Reading};
ghost use Rattle.plan_building.specs.View.{grown, leaf_of, made};
ghost use Rattle.plan_reading.specs.Stops.{Gives};
ghost use Rattle.spelling.specs.Places.{Spot};
ghost use Rattle.typed_value.specs.View.{pair_of, pairs_of};

use bit_slice::BitString;
use cell_nodes::Mode;
use plan_building::{Growing, Outputs, fits_edge, fits_root, plant_here, plant_root, with_keys};
use plan_reading::StopError;
use std::alloc::{AllocError, Global};
use tlb_memory::NoMemory;
use typed_value::Dict;

/// Whether the keys and hidden parts are those of a `Hashmap` with keys of `n` bits.
pub fn fits_here(alloc: Global, mode: Mode, n: u32, dict: &Dict) -> Result<bool, NoMemory>
    requires { n ≤ 1023 }
    ensures { IfOk result (λ fits. fits ≡ tests.fits_edge mode n
        (tests.outline (pairs_of (map pair_of dict.now.pairs)) dict.now.unknown)) }
{
    let keys = with_keys(alloc, dict.pairs.as_slice())?;
    fits_edge(alloc, mode, n, keys, dict.unknown.as_slice())
}

/// Whether the keys and hidden parts are those of a `HashmapE` with keys of `n` bits.
pub fn fits_below(alloc: Global, mode: Mode, n: u32, dict: &Dict) -> Result<bool, NoMemory>
    requires { n ≤ 1023 }
    ensures { IfOk result (λ fits. fits ≡ tests.fits_root mode n
        (tests.outline (pairs_of (map pair_of dict.now.pairs)) dict.now.unknown)) }
{
    let keys = with_keys(alloc, dict.pairs.as_slice())?;
    fits_root(alloc, mode, n, keys, dict.unknown.as_slice())
}

/// Adds the first edge of a dictionary with these contents by key, which fit with its hidden parts.
pub fn add_here(
    alloc: Global,
    n: u32,
    leaves: Vec<(BitString, Growing)>,
    dict: &Dict,
    b: &mut Growing,
) -> Result<Outputs, StopError>
    requires short { n ≤ 1023 }
    requires fits { (mode : Reading)
        × tests.FitEdge mode n (plain.entries_of (map leaf_of leaves.items) dict.now.unknown) }
    ensures { (h : Spot) → Gives h (made b.new) result
        (plain.plant_here h n (plain.entries_of (map leaf_of leaves.items) dict.now.unknown)
        (plain.is_last (map leaf_of leaves.items) dict.now.unknown) (grown b.old)) }
{
    plant_here(alloc, n, leaves, dict.unknown.as_slice(), b)
}

/// Adds the bit and the reference of a dictionary that may be empty, with these contents by key, which fit with its
/// hidden parts.
pub fn add_below(
    alloc: Global,
    n: u32,
    leaves: Vec<(BitString, Growing)>,
    dict: &Dict,
    b: &mut Growing,
) -> Result<Outputs, StopError>
    requires short { n ≤ 1023 }
    requires fits { (mode : Reading)
        × tests.FitRoot mode n (plain.entries_of (map leaf_of leaves.items) dict.now.unknown) }
    ensures { (h : Spot) → Gives h (made b.new) result
        (plain.plant_root h n (plain.entries_of (map leaf_of leaves.items) dict.now.unknown) (grown b.old)) }
{
    plant_root(alloc, n, leaves, dict.unknown.as_slice(), b)
}

/// Adds a leaf under a copy of its key.
pub fn add_leaf(
    alloc: Global,
    key: &BitString,
    content: Growing,
    leaves: &mut Vec<(BitString, Growing)>,
) -> Result<(), NoMemory>
    ensures { OnOk result (map leaf_of leaves.new.items
        ≡ map leaf_of leaves.old.items ++ (key.now, grown content) ∷ []) }
{
    let copy = BitString::from_slice(alloc, key.slice())?;
    leaves.push((copy, content)).map_err(AllocError::from)?;
    Ok(())
}

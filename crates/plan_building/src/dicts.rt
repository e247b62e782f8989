//! Dictionaries: which keys and hidden parts fit, and the tree of the contents.
ghost use Rattle.std.specs.Prelude.{◌≡◌, ◌≤◌, ◌<◌, ◌+◌, ℕ, IfOk, IsTrue, ◌↔◌, length, map};
ghost use Rattle.building.specs.MapTests as tests;
ghost use Rattle.building.specs.PlainBuilder as plain;
ghost use Rattle.cell_nodes.specs.declared.tree.Mode.{Mode as Reading};
ghost use Rattle.hashmap_tree.specs.Entries.{Entries, hidden_in};
ghost use Rattle.hashmap_tree.specs.Merged.{merged};
ghost use Rattle.hashmap_tree.specs.Order.{AreInOrder};
ghost use Rattle.hashmap_tree.specs.Placed.{AllPlaced};
ghost use Rattle.hashmap_tree.specs.Plants.{leaf_of as plant_leaf};
ghost use Rattle.plan_reading.specs.Stops.{Gives};
ghost use Rattle.spelling.specs.Places.{Spot};
ghost use Rattle.typed_value.specs.Values.{PlainPairs};
ghost use Rattle.typed_value.specs.View.{pair_of, pairs_of};
ghost use Rattle.plan_building.specs.View.{grown, leaf_of, made};

use crate::growing::{Growing, put_content, put_empty, put_hidden_root, put_root};
use crate::halves::plant_parts;
use crate::outputs::Outputs;
use crate::planted::{hidden_alone, planted};
use bit_slice::BitString;
use cell_nodes::{CellBuilder, Hidden, Mode};
use hashmap_tree::{PlantError, are_entries, plant};
use plan_reading::{StopError, stop_here};
use spelling::Cause;
use std::alloc::{AllocError, Global};
use tlb_memory::NoMemory;
use typed_value::Value;

/// The keys of a map, each with an empty content.
pub fn with_keys(
    alloc: Global,
    pairs: &[(BitString, Value)],
) -> Result<Vec<(BitString, CellBuilder)>, NoMemory>
    ensures { IfOk result (λ leaves. map plant_leaf leaves.items
        ≡ tests.keys_of (pairs_of (map pair_of pairs.now))) }
{
    let mut leaves = Vec::new(alloc);
    for (key, _) in pairs {
        let key = BitString::from_slice(alloc, key.slice())?;
        let content = CellBuilder::new(alloc)?;
        leaves.push((key, content)).map_err(AllocError::from)?;
    }
    Ok(leaves)
}

// Whether hidden parts may stand in this mode, if there are any.
fn admits(mode: Mode, unknown: &[(BitString, Hidden)]) -> bool
    ensures { (es : Entries) → hidden_in es ≡ unknown.now → IsTrue result ↔ tests.Admits mode es }
{
    match mode {
        Mode::Partial => true,
        Mode::Whole | Mode::Lax => unknown.is_empty(),
    }
}

// Whether there are no keys and no hidden parts.
fn has_none(leaves: &[(BitString, CellBuilder)], unknown: &[(BitString, Hidden)]) -> bool
    ensures { IsTrue result ↔ (length leaves.now + length unknown.now ≡ 0) }
{
    leaves.is_empty() && unknown.is_empty()
}

// Whether these keys and hidden parts are in order, and may stand in this mode.
fn are_in_order(
    alloc: Global,
    mode: Mode,
    n: u32,
    leaves: &[(BitString, CellBuilder)],
    unknown: &[(BitString, Hidden)],
) -> Result<bool, NoMemory>
    ensures { IfOk result (λ b. IsTrue b ↔ (AreInOrder n (merged (map plant_leaf leaves.now) unknown.now)
        × tests.Admits mode (merged (map plant_leaf leaves.now) unknown.now))) }
{
    if admits(mode, unknown) {
        return are_entries(alloc, n, leaves, unknown);
    }
    Ok(false)
}

// Whether each hidden part of these entries has a place. Their tree is planted where there are hidden parts.
fn are_placed(
    alloc: Global,
    n: u32,
    leaves: Vec<(BitString, CellBuilder)>,
    unknown: &[(BitString, Hidden)],
) -> Result<bool, NoMemory>
    requires short { n ≤ 1023 }
    requires order { AreInOrder n (merged (map plant_leaf leaves.items) unknown.now) }
    ensures { IfOk result (λ placed. IsTrue placed ↔ AllPlaced (merged (map plant_leaf leaves.items) unknown.now)) }
{
    if unknown.is_empty() {
        return Ok(true);
    }
    match plant(alloc, n, leaves, unknown) {
        Ok(_) => Ok(true),
        Err(PlantError::Full(_)) => Ok(true),
        Err(PlantError::TooDeep) => Ok(true),
        Err(PlantError::Form(_)) => Ok(false),
        Err(PlantError::NoMemory) => Err(NoMemory),
    }
}

/// Whether these keys, with empty contents, and hidden parts are those of a `Hashmap` with keys of `n` bits.
pub fn fits_edge(
    alloc: Global,
    mode: Mode,
    n: u32,
    leaves: Vec<(BitString, CellBuilder)>,
    unknown: &[(BitString, Hidden)],
) -> Result<bool, NoMemory>
    requires { n ≤ 1023 }
    ensures { (ps : PlainPairs) → map plant_leaf leaves.items ≡ tests.keys_of ps
        → IfOk result (λ fits. fits ≡ tests.fits_edge mode n (tests.outline ps unknown.now)) }
{
    if has_none(leaves.as_slice(), unknown) {
        return Ok(false);
    }
    let fits = are_in_order(alloc, mode, n, leaves.as_slice(), unknown)?;
    if fits {
        return are_placed(alloc, n, leaves, unknown);
    }
    Ok(false)
}

/// Whether these keys, with empty contents, and hidden parts are those of a `HashmapE` with keys of `n` bits.
pub fn fits_root(
    alloc: Global,
    mode: Mode,
    n: u32,
    leaves: Vec<(BitString, CellBuilder)>,
    unknown: &[(BitString, Hidden)],
) -> Result<bool, NoMemory>
    requires { n ≤ 1023 }
    ensures { (ps : PlainPairs) → map plant_leaf leaves.items ≡ tests.keys_of ps
        → IfOk result (λ fits. fits ≡ tests.fits_root mode n (tests.outline ps unknown.now)) }
{
    let fits = are_in_order(alloc, mode, n, leaves.as_slice(), unknown)?;
    if fits {
        return match hidden_alone(leaves.as_slice(), unknown) {
            Some(_) => Ok(true),
            None => are_placed(alloc, n, leaves, unknown),
        };
    }
    Ok(false)
}

// Whether the one value stands in place, and takes all that is left.
fn is_last(leaves: &[(BitString, Growing)], unknown: &[(BitString, Hidden)]) -> bool
    ensures { result ≡ plain.is_last (map leaf_of leaves.now) unknown.now }
{
    let Some(((_, content), rest)) = leaves.split_first() else {
        return false;
    };
    if rest.len() > 0 {
        return false;
    }
    if unknown.len() > 0 {
        return false;
    }
    content.shut
}

// The contents alone.
fn contents(
    alloc: Global,
    leaves: Vec<(BitString, Growing)>,
) -> Result<Vec<(BitString, CellBuilder)>, NoMemory>
    ensures { IfOk result (λ contents. contents.items ≡ map (λ x. (x.0, x.1.cell)) leaves.items) }
{
    let contents = leaves
        .into_iter()
        .map(|(key, content)| (key, content.cell))
        .collect(alloc)?;
    Ok(contents)
}

/// Adds the first edge of the dictionary with these contents by key and these hidden parts, which fit.
pub fn plant_here(
    alloc: Global,
    n: u32,
    leaves: Vec<(BitString, Growing)>,
    unknown: &[(BitString, Hidden)],
    b: &mut Growing,
) -> Result<Outputs, StopError>
    requires short { n ≤ 1023 }
    requires fits { (mode : Reading)
        × tests.FitEdge mode n (plain.entries_of (map leaf_of leaves.items) unknown.now) }
    ensures { (h : Spot) → Gives h (made b.new) result
        (plain.plant_here h n (plain.entries_of (map leaf_of leaves.items) unknown.now)
        (plain.is_last (map leaf_of leaves.items) unknown.now) (grown b.old)) }
{
    let last = is_last(leaves.as_slice(), unknown);
    let leaves = contents(alloc, leaves)?;
    if b.shut {
        // Faults of the parts of the first edge come before what follows a rest.
        plant_parts(alloc, n, leaves, unknown)?;
        return Err(stop_here(alloc, Cause::AfterRest));
    }
    let content = planted(alloc, n, leaves, unknown)?;
    put_content(alloc, &content, last, b)
}

/// Adds the bit and the reference of a `HashmapE` with these contents by key and these hidden parts, which fit.
pub fn plant_root(
    alloc: Global,
    n: u32,
    leaves: Vec<(BitString, Growing)>,
    unknown: &[(BitString, Hidden)],
    b: &mut Growing,
) -> Result<Outputs, StopError>
    requires short { n ≤ 1023 }
    requires fits { (mode : Reading)
        × tests.FitRoot mode n (plain.entries_of (map leaf_of leaves.items) unknown.now) }
    ensures { (h : Spot) → Gives h (made b.new) result
        (plain.plant_root h n (plain.entries_of (map leaf_of leaves.items) unknown.now) (grown b.old)) }
{
    let leaves = contents(alloc, leaves)?;
    if has_none(leaves.as_slice(), unknown) {
        return put_empty(alloc, b);
    }
    if let Some(hidden) = hidden_alone(leaves.as_slice(), unknown) {
        return put_hidden_root(alloc, hidden, b);
    }
    let content = planted(alloc, n, leaves, unknown)?;
    put_root(alloc, content.finish(alloc)?, b)
}

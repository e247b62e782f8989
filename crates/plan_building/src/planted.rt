//! The content of an edge, by `plant`.
ghost use Rattle.std.specs.Prelude.{◌≡◌, ◌≤◌, ◌<◌, ◌+◌, length, map};
ghost use Rattle.building.specs.PlainBuilder as plain;
ghost use Rattle.building.specs.Planting.{planting};
ghost use Rattle.hashmap_tree.specs.Merged.{merged};
ghost use Rattle.hashmap_tree.specs.Order.{AreInOrder};
ghost use Rattle.hashmap_tree.specs.Placed.{AllPlaced};
ghost use Rattle.hashmap_tree.specs.Plants.{held_of, leaf_of as plant_leaf};
ghost use Rattle.plan_reading.specs.Stops.{Gives};
ghost use Rattle.spelling.specs.Places.{Spot};
ghost use Rattle.plan_building.specs.Sides.{StandsAlone};

use crate::ranges::are_hashes;
use bit_slice::BitString;
use cell_nodes::{CellBuilder, Hidden};
use hashmap_tree::{PlantError, plant};
use plan_reading::{StopError, stop_here};
use spelling::Cause;
use std::alloc::Global;

/// The hidden part that stands in place of all keys, if one does.
pub(crate) fn hidden_alone(
    leaves: &[(BitString, CellBuilder)],
    unknown: &[(BitString, Hidden)],
) -> Option<Hidden>
    ensures { StandsAlone (map plant_leaf leaves.now) unknown.now result }
{
    if leaves.len() > 0 {
        return None;
    }
    match unknown.split_first() {
        None => None,
        Some((first, rest)) => {
            if rest.len() > 0 {
                return None;
            }
            if first.0.slice().len() > 0 {
                return None;
            }
            Some(first.1)
        }
    }
}

/// The content of the first edge.
pub(crate) fn planted(
    alloc: Global,
    n: u32,
    leaves: Vec<(BitString, CellBuilder)>,
    unknown: &[(BitString, Hidden)],
) -> Result<CellBuilder, StopError>
    requires short { n ≤ 1023 }
    requires order { AreInOrder n (merged (map plant_leaf leaves.items) unknown.now) }
    requires some { 0 < length leaves.items + length unknown.now }
    requires placed { AllPlaced (merged (map plant_leaf leaves.items) unknown.now) }
    ensures { (h : Spot) → Gives h held_of result
        (plain.planted h (planting n (merged (map plant_leaf leaves.items) unknown.now))) }
{
    are_hashes(unknown);
    match plant(alloc, n, leaves, unknown) {
        Ok(content) => {
            let _length = content.content().bits.len();
            Ok(content)
        }
        Err(PlantError::Form(_)) => unreachable!(),
        Err(PlantError::Full(_)) => Err(stop_here(alloc, Cause::Full)),
        Err(PlantError::TooDeep) => Err(stop_here(alloc, Cause::TooDeep)),
        Err(PlantError::NoMemory) => Err(StopError::NoMemory),
    }
}

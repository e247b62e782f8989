//! The two parts of the first edge of a dictionary, each planted by itself.
ghost use Rattle.std.specs.Prelude.{◌≡◌, ◌≤◌, ◌<◌, ◌+◌, ◌++◌, ◌∷◌, ℕ, IfOk, OnOk, [], false, length, map, true};
ghost use Rattle.building.specs.Planting.{part_of, tops};
ghost use Rattle.hashmap_tree.specs.Entries as entries;
ghost use Rattle.hashmap_tree.specs.Merged.{merged};
ghost use Rattle.hashmap_tree.specs.Order.{AreInOrder};
ghost use Rattle.hashmap_tree.specs.Placed.{AllPlaced};
ghost use Rattle.hashmap_tree.specs.PlacedLaws.{HasPlaces};
ghost use Rattle.hashmap_tree.specs.Plants.{leaf_of as plant_leaf};
ghost use Rattle.plan_reading.specs.Stops.{Gives};
ghost use Rattle.spelling.specs.Places.{Spot};
ghost use Rattle.plan_building.specs.Sides.{IsFirstBit, IsSide, items_with, judged, with_first};

use crate::planted::{hidden_alone, planted};
use bit_slice::BitString;
use cell_nodes::{CellBuilder, Hidden};
use plan_reading::{StopError, stop_here};
use spelling::Cause;
use std::alloc::{AllocError, Global};
use tlb_memory::NoMemory;

// Contents by key and hidden parts by prefix, of which the first bits are passed.
#[derive(Drop)]
struct Half {
    leaves: Vec<(BitString, CellBuilder)>,
    unknown: Vec<(BitString, Hidden)>,
}

// The first bit of a key, and the rest.
fn first_bit(alloc: Global, key: &BitString) -> Result<Option<(bool, BitString)>, NoMemory>
    ensures { IfOk result (λ first. IsFirstBit key.now first) }
{
    let bits = key.slice();
    match bits.take(1) {
        None => Ok(None),
        Some((_, rest)) => {
            let bit = bits.known_bit(0);
            Ok(Some((bit, BitString::from_slice(alloc, rest)?)))
        }
    }
}

fn push<T: Drop>(key: BitString, item: T, items: &mut Vec<(BitString, T)>) -> Result<(), NoMemory>
    ensures { OnOk result (items.new.items ≡ items.old.items ++ (key, item) ∷ []) }
{
    items.push((key, item)).map_err(AllocError::from)?;
    Ok(())
}

// Puts an item among those whose keys go on with 0, or those whose keys go on with 1, without this bit.
fn put_side<T: Drop>(
    alloc: Global,
    key: &BitString,
    item: T,
    zeros: &mut Vec<(BitString, T)>,
    ones: &mut Vec<(BitString, T)>,
) -> Result<(), NoMemory>
    ensures zeros { OnOk result (zeros.new.items ≡ zeros.old.items ++ with_first 0 key.now item []) }
    ensures ones { OnOk result (ones.new.items ≡ ones.old.items ++ with_first 1 key.now item []) }
{
    match first_bit(alloc, key)? {
        None => Ok(()),
        Some((false, rest)) => push(rest, item, zeros),
        Some((true, rest)) => push(rest, item, ones),
    }
}

// Those whose keys go on with 0, and those whose keys go on with 1, without this bit.
fn split<T: Drop>(
    alloc: Global,
    items: Vec<(BitString, T)>,
) -> Result<(Vec<(BitString, T)>, Vec<(BitString, T)>), NoMemory>
    ensures zeros { IfOk result (λ sides. sides.0.items ≡ items_with 0 items.items) }
    ensures ones { IfOk result (λ sides. sides.1.items ≡ items_with 1 items.items) }
{
    let mut zeros = Vec::new(alloc);
    let mut ones = Vec::new(alloc);
    for (key, item) in items {
        put_side(alloc, &key, item, &mut zeros, &mut ones)?;
    }
    Ok((zeros, ones))
}

impl Half {
    fn is_empty(&self) -> bool
        ensures none { result ≡ true → (self.now.leaves.items ≡ []) × (self.now.unknown.items ≡ []) }
        ensures some { result ≡ false → 0 < length self.now.leaves.items + length self.now.unknown.items }
    {
        self.leaves.is_empty() && self.unknown.is_empty()
    }

    // Those whose keys go on with 0, and those whose keys go on with 1, without this bit.
    fn split(self, alloc: Global) -> Result<(Half, Half), NoMemory>
        ensures zeros { IfOk result (λ sides. IsSide 0 (map plant_leaf self.leaves.items) self.unknown.items
            (map plant_leaf sides.0.leaves.items) sides.0.unknown.items) }
        ensures ones { IfOk result (λ sides. IsSide 1 (map plant_leaf self.leaves.items) self.unknown.items
            (map plant_leaf sides.1.leaves.items) sides.1.unknown.items) }
    {
        let Half { leaves, unknown } = self;
        let leaves = split(alloc, leaves)?;
        let unknown = split(alloc, unknown)?;
        let zeros = Half {
            leaves: leaves.0,
            unknown: unknown.0,
        };
        let ones = Half {
            leaves: leaves.1,
            unknown: unknown.1,
        };
        Ok((zeros, ones))
    }

    // Plants one part of a fork, for keys of `n` bits, and lets it go.
    fn plant(self, alloc: Global, n: u32) -> Result<(), StopError>
        requires short { n ≤ 1023 }
        requires order { AreInOrder n (merged (map plant_leaf self.leaves.items) self.unknown.items) }
        requires some { 0 < length self.leaves.items + length self.unknown.items }
        requires places { HasPlaces (merged (map plant_leaf self.leaves.items) self.unknown.items) }
        ensures { (h : Spot) → Gives h (λ x. x) result
            (judged h (part_of (tops n) n (merged (map plant_leaf self.leaves.items) self.unknown.items))) }
    {
        let Half { leaves, unknown } = self;
        match hidden_alone(leaves.as_slice(), unknown.as_slice()) {
            Some(hidden) => plant_hidden(alloc, hidden),
            None => {
                planted(alloc, n, leaves, unknown.as_slice())?;
                Ok(())
            }
        }
    }
}

// A hidden part as a part of a fork.
fn plant_hidden(alloc: Global, hidden: Hidden) -> Result<(), StopError>
    ensures { (h : Spot) (n : ℕ) → Gives h (λ x. x) result (judged h (part_of (tops n) n (([], entries.hidden hidden) ∷ []))) }
{
    if hidden.depth > 1024 {
        return Err(stop_here(alloc, Cause::TooDeep));
    }
    Ok(())
}

fn copy_hidden(
    alloc: Global,
    unknown: &[(BitString, Hidden)],
) -> Result<Vec<(BitString, Hidden)>, NoMemory>
    ensures { IfOk result (λ copies. copies.items ≡ unknown.now) }
{
    let mut copies = Vec::new(alloc);
    for (prefix, hidden) in unknown {
        let prefix = BitString::from_slice(alloc, prefix.slice())?;
        copies.push((prefix, *hidden)).map_err(AllocError::from)?;
    }
    Ok(copies)
}

// Plants the two parts of the first edge for keys of `n` bits, if it is a fork, and lets them go. It goes down a bit at a
// time by recursion.
fn plant_half(alloc: Global, n: u32, half: Half) -> Result<(), StopError>
    requires short { n ≤ 1023 }
    requires order { AreInOrder n (merged (map plant_leaf half.leaves.items) half.unknown.items) }
    requires some { 0 < length half.leaves.items + length half.unknown.items }
    requires placed { AllPlaced (merged (map plant_leaf half.leaves.items) half.unknown.items) }
    ensures { (h : Spot) → Gives h (λ x. x) result
        (judged h (tops n [] (merged (map plant_leaf half.leaves.items) half.unknown.items))) }
{
    if n == 0 {
        return Ok(());
    }
    let sides = half.split(alloc)?;
    if sides.1.is_empty() {
        return plant_half(alloc, n - 1, sides.0);
    }
    if sides.0.is_empty() {
        return plant_half(alloc, n - 1, sides.1);
    }
    sides.0.plant(alloc, n - 1)?;
    sides.1.plant(alloc, n - 1)
}

/// Plants the two parts of the first edge, if it is a fork, and lets them go: faults in them come before those of the
/// first edge itself.
pub(crate) fn plant_parts(
    alloc: Global,
    n: u32,
    leaves: Vec<(BitString, CellBuilder)>,
    unknown: &[(BitString, Hidden)],
) -> Result<(), StopError>
    requires short { n ≤ 1023 }
    requires order { AreInOrder n (merged (map plant_leaf leaves.items) unknown.now) }
    requires some { 0 < length leaves.items + length unknown.now }
    requires placed { AllPlaced (merged (map plant_leaf leaves.items) unknown.now) }
    ensures { (h : Spot) → Gives h (λ x. x) result
        (judged h (tops n [] (merged (map plant_leaf leaves.items) unknown.now))) }
{
    let unknown = copy_hidden(alloc, unknown)?;
    plant_half(alloc, n, Half { leaves, unknown })
}

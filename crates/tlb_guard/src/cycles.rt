//! Types that lead back to themselves.
ghost use Rattle.std.specs.Prelude.{◌≡◌, ◌++◌, ◌∷◌, [], Some, All, IfOk, OnOk, IfSome, length, map, option_map};
ghost use Rattle.std.specs.List.{list_all};
ghost use Rattle.tlb_syntax.specs.Tree.{SchemaView};
ghost use Rattle.tlb_guard.specs.Facts.{holds};
ghost use Rattle.tlb_guard.specs.Numbering.{place_of, views, word_at};
ghost use Rattle.tlb_guard.specs.Views.{IsWithin, exposed_in};
ghost use Rattle.tlb_guard.specs.Cycles.{first_unguarded};
ghost use Rattle.tlb_guard.specs.Edges.{IsNumbered, edges_at, edges_by, edges_in, index_by, type_edge};

use crate::edges::{Edge, Unguarded, first_on_cycle};
use crate::empty::empty_types;
use crate::exposed::exposed_parameters;
use crate::exposures::{ExposedTerm, Exposure, exposures_of};
use crate::rules::is_found;
use crate::types::Types;
use sqlite_items::Items;
use std::alloc::Global;
use tlb_memory::NoMemory;
use tlb_syntax::Constructor;

fn are_exposed(exposed: &[bool], parameters: &[usize]) -> bool
    ensures { result ≡ list_all (holds exposed.now) parameters.now }
{
    parameters
        .iter()
        .all(|parameter| is_found(exposed, *parameter))
}

// The edge by which the constructor of that number and type leads to another type.
fn edge_of(
    constructor: usize,
    from: usize,
    exposure: &Exposure<'_>,
    exposed: &[bool],
) -> Option<Edge>
    ensures edge { (s : SchemaView) → edges_in s result ≡ edges_by (word_at s from) constructor (exposed_in s (holds exposed.now) (exposure.now ∷ [])) }
    ensures numbered { (s : SchemaView) → place_of s (word_at s from) ≡ Some from → IsWithin s exposure.now → IfSome result (IsNumbered s) }
{
    match exposure.term {
        ExposedTerm::Declared(to) if are_exposed(exposed, exposure.through.as_slice()) => Some(
            Edge {
                from,
                to,
                at: Unguarded {
                    constructor,
                    item: exposure.item,
                },
            },
        ),
        _ => None,
    }
}

fn add_edges(
    constructor: usize,
    from: usize,
    exposures: &[Exposure<'_>],
    exposed: &[bool],
    edges: &mut Items<Edge>,
) -> Result<(), NoMemory>
    ensures edges { OnOk result ((s : SchemaView) → map (type_edge s) edges.new ≡ map (type_edge s) edges.old ++ edges_by (word_at s from) constructor (exposed_in s (holds exposed.now) exposures.now)) }
    ensures numbered { OnOk result ((s : SchemaView) → place_of s (word_at s from) ≡ Some from → All (IsWithin s) exposures.now → All (IsNumbered s) edges.old → All (IsNumbered s) edges.new) }
{
    for exposure in exposures {
        if let Some(edge) = edge_of(constructor, from, exposure, exposed) {
            edges.push(edge)?;
        }
    }
    Ok(())
}

// The edges between types, in the order of the text.
fn edges_of(
    alloc: Global,
    types: &Types<'_>,
    exposures: &[Items<Exposure<'_>>],
    exposed: &[bool],
) -> Result<Items<Edge>, NoMemory>
    requires size { length exposures.now ≡ length types.now }
    requires within { All (All (IsWithin (views types.now))) exposures.now }
    ensures edges { IfOk result (λ edges. map (type_edge (views types.now)) edges ≡ edges_at 0 (views types.now) (map (exposed_in (views types.now) (holds exposed.now)) exposures.now)) }
    ensures numbered { IfOk result (All (IsNumbered (views types.now))) }
{
    let mut edges = Items::new(alloc);
    for (number, constructor) in types.constructors().iter().enumerate() {
        if let Some(from) = types.place(&constructor.result) {
            add_edges(
                number,
                from,
                exposures[number].as_slice(),
                exposed,
                &mut edges,
            )?;
        }
    }
    Ok(edges)
}

/// The first item, in the text, through which a type exposes another that leads back to it.
pub fn first_unguarded(
    alloc: Global,
    constructors: &[Constructor],
) -> Result<Option<Unguarded>, NoMemory>
    ensures { IfOk result (λ first. option_map index_by first ≡ first_unguarded (views constructors.now)) }
{
    let types = Types::new(alloc, constructors)?;
    let empty = empty_types(alloc, &types)?;
    let exposures = exposures_of(alloc, &types, empty.as_slice())?;
    let exposed = exposed_parameters(alloc, &types, exposures.as_slice())?;
    let edges = edges_of(alloc, &types, exposures.as_slice(), exposed.as_slice())?;
    first_on_cycle(alloc, constructors.len(), edges.as_slice())
}

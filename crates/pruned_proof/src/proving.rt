//! The proof of chosen paths.
ghost use Rattle.std.specs.Prelude.{◌≡◌, ◌≤◌, length};
ghost use Rattle.cell_nodes.specs.declared.tree.Mode.TheVariants.{Partial};
ghost use Rattle.accepted_schema.specs.Accepted.{kept_cores};
ghost use Rattle.closed_type.specs.View.{closed_type as type_view};
ghost use Rattle.tlb_syntax.specs.View.{schema as schema_view};
ghost use Rattle.pruning.specs.SpellsLaid.{LaidReading, LaidRoot, plain_root};
ghost use Rattle.cell_nodes.specs.Tree.{mask};
ghost use Rattle.spelling.specs.Spells.{Reading};
ghost use Rattle.typed_value.specs.Values.{Plain};
ghost use Rattle.typed_value.specs.View.{value as value_view};
ghost use Rattle.pruned_proof.specs.Proved.{Answers, CutsTo, Named, ProvesOver, path_views};

use crate::cutting::CutError;
use crate::error::ProveError;
use crate::holding::is_raw;
use crate::walking::cut_cell;
use crate::wanted::Wanted;
use accepted_pruning::laws::{one_prove_answer, prove_then_view, pruning_commutes};
use accepted_spelling::laws::read_or_stuck;
use cell_nodes::{Cell, CellError, Mode};
use closed_type::ClosedType;
use field_plan::Plan;
use path_knowledge::names;
use proof_laws::laws::laid_is_read;
use std::alloc::Global;
use typed_reader::{ReadError, read};
use typed_value::{Path, Value};

/// The most levels of a value.
const MOST_LEVELS: u32 = 2_304;

/// The most cells of an unfolded proof.
const MOST_CELLS: u32 = 262_144;

/// A Merkle proof, and the value that its child shows.
#[derive(Drop)]
pub struct Proved {
    pub proof: Cell,
    pub value: Value,
}

// The number, from 1, of the first path that names nothing.
fn first_nameless(value: &Value, paths: &[Path]) -> Option<u32>
    requires { length paths.now ≤ 64 }
    ensures { Named (value_view value.now) (path_views paths.now) result }
{
    let mut number = 1u32;
    'paths: for path in paths {
        if !names(value, path) {
            return Some(number);
        }
        number += 1;
    }
    None
}

// The tree without the references that no path keeps.
fn cut_root(
    alloc: Global,
    plan: &Plan,
    ty: &ClosedType,
    cell: &Cell,
    value: &Value,
    paths: &[Path],
) -> Result<Cell, CutError>
    requires { mask cell.now ≡ 0 }
    ensures { (r : LaidRoot) → plain_root r ≡ value_view value.now
        → LaidReading (kept_cores (schema_view plan.now.0)) (type_view ty.now) cell.now r
        → CutsTo (path_views paths.now) r cell.now result }
{
    // The walk goes by the whole schema, which is the same.
    plan.schema();
    cell.good();
    if is_raw(value) {
        return Ok(cell.share()?);
    }
    let wanted = Wanted::of(alloc, paths)?;
    if wanted.is_whole() {
        return Ok(cell.share()?);
    }
    cut_cell(alloc, plan, MOST_LEVELS, ty, value, &wanted, cell)
}

// The proof over this child, and what the child shows.
fn proof_over(
    alloc: Global,
    plan: &Plan,
    ty: &ClosedType,
    child: &Cell,
) -> Result<Proved, ProveError>
    requires { (v : Plain) × Reading Partial (kept_cores (schema_view plan.now.0)) (type_view ty.now) child.now v }
    ensures { ProvesOver (kept_cores (schema_view plan.now.0)) (type_view ty.now) child.now result }
{
    let proof = match Cell::proof(alloc, child) {
        Ok(proof) => proof,
        Err(CellError::NoMemory) => return Err(ProveError::NoMemory),
        Err(CellError::TooDeep) | Err(CellError::BadExotic) => {
            return Err(ProveError::ProofTooDeep);
        }
    };
    if proof.unfolded() > MOST_CELLS {
        return Err(ProveError::ProofTooLarge);
    }
    match read(alloc, plan, ty, child, Mode::Partial) {
        Ok(value) => Ok(Proved { proof, value }),
        Err(ReadError::NoMemory) => Err(ProveError::NoMemory),
        Err(ReadError::Stuck(_)) => unreachable!(),
    }
}

/// Makes the Merkle proof of the chosen paths in the reading of a cell at a closed type. What no path needs to be shown is
/// pruned: of the references `^` and of dictionaries those are kept that lead to a chosen value, to what is inside it, or
/// to the place where a chosen key would stand. Refusals come in the order of `ProveError`.
///
/// It reads the cell, goes into the cells on the ways of the paths once more, and reads the proof's child. What is kept
/// whole is shared, and what is pruned is not looked into.
pub fn prove(
    alloc: Global,
    plan: &Plan,
    ty: &ClosedType,
    cell: &Cell,
    keep: &[Path],
) -> Result<Proved, ProveError>
    requires { length keep.now ≤ 64 }
    ensures { Answers (kept_cores (schema_view plan.now.0)) (type_view ty.now) cell.now (path_views keep.now) result }
{
    one_prove_answer();
    prove_then_view();
    pruning_commutes();
    read_or_stuck();
    laid_is_read();
    // The laws hold of the schema of a plan, which is accepted, and of a cell, which is good.
    plan.schema();
    cell.good();
    let value = match read(alloc, plan, ty, cell, Mode::Whole) {
        Ok(value) => value,
        Err(ReadError::NoMemory) => return Err(ProveError::NoMemory),
        Err(ReadError::Stuck(place)) => return Err(ProveError::Stuck(place)),
    };
    if let Some(number) = first_nameless(&value, keep) {
        return Err(ProveError::NoSuchPath(number));
    }
    if cell.mask() != 0 {
        return Err(ProveError::NotWhole);
    }
    match cut_root(alloc, plan, ty, cell, &value, keep) {
        Ok(child) => proof_over(alloc, plan, ty, &child),
        Err(CutError::NoMemory) => Err(ProveError::NoMemory),
        Err(CutError::Unread) => unreachable!(),
    }
}

//! The stage of a proof of the paths that words write.
ghost use Rattle.std.specs.Prelude.{◌≡◌, ◌≤◌, IfOk, List, Result, length, map, string_bytes};
ghost use Rattle.cell_nodes.specs.Tree.{unfolded};
ghost use Rattle.cell_nodes.specs.declared.tree.Tree.{Tree};
ghost use Rattle.pruned_proof.specs.Proved.{path_views};
ghost use Rattle.tlb_edge.specs.Files.{Name};
ghost use Rattle.tlb_syntax.specs.View.{schema as schema_view};
ghost use Rattle.cli_refusals.specs.Refusal.{Refusal as Refused, path as refused_path};
ghost use Rattle.cli_stages.specs.PathWords.{AreBegun, Is, unless_bad};
ghost use Rattle.cli_stages.specs.ProofOf.{ProofOf};
ghost use Rattle.cli_stages.specs.Stage.{Answers, IfRefused};
ghost use Rattle.cli_stages.specs.View.{type_by};

use crate::Stop;
use crate::cell::refused;
use crate::named_type::ShownType;
use crate::path_words::paths_of;
use crate::proof::refused_by;
use cell_nodes::Cell;
use cli_refusals::{ProofCause, Refusal};
use field_plan::Plan;
use proof_laws::laws::laid_is_read;
use pruned_proof::{ProveError, prove};
use std::alloc::Global;
use typed_value::Path;
use value_text::laws::at_most_one_path;

fn refused_at(number: u32) -> Stop
    ensures { IfRefused (λ r. r ≡ refused_path number) result }
{
    Stop::Refused(Refusal::Path(number))
}

// A word that writes no path comes first.
fn unless_bad(bad: Option<u32>, made: Result<Cell, Stop>) -> Result<Cell, Stop>
    ensures answer { (r : Result Tree Refused) → Answers (Is r) (λ tree. tree) made
        → Answers (Is (unless_bad bad r)) (λ tree. tree) result }
    ensures small { IfOk made (λ proof. unfolded proof ≤ 262144) → IfOk result (λ proof. unfolded proof ≤ 262144) }
{
    match bad {
        Some(number) => Err(refused_at(number)),
        None => made,
    }
}

// The proof of these paths, unless the word of that number writes none.
fn proof_of(
    alloc: Global,
    plan: &Plan,
    ty: &ShownType,
    root: &Cell,
    paths: &[Path],
    bad: Option<u32>,
) -> Result<Cell, Stop>
    requires { length paths.now ≤ 64 }
    ensures answer { (words : List Name) → AreBegun 1 words (path_views paths.now) bad
        → Answers (ProofOf words (schema_view plan.now.0) (type_by ty.now) root.now) (λ tree. tree) result }
    ensures small { IfOk result (λ proof. unfolded proof ≤ 262144) }
{
    // Nothing in it is passed over.
    let _schema = plan.schema();
    laid_is_read();
    at_most_one_path();
    match prove(alloc, plan, &ty.closed, root, paths) {
        Ok(proved) => unless_bad(bad, Ok(proved.proof)),
        Err(ProveError::Stuck(place)) => Err(refused(alloc, plan, ty, &place)),
        Err(ProveError::NoSuchPath(number)) => Err(refused_at(number)),
        Err(ProveError::NotWhole) => unless_bad(bad, Err(refused_by(ProofCause::NotWhole))),
        Err(ProveError::ProofTooDeep) => unless_bad(bad, Err(refused_by(ProofCause::ProofTooDeep))),
        Err(ProveError::ProofTooLarge) => {
            unless_bad(bad, Err(refused_by(ProofCause::ProofTooLarge)))
        }
        Err(ProveError::NoMemory) => Err(Stop::NoMemory),
    }
}

/// The proof of the paths that the words write, in the cell's value at the type.
pub fn proved(
    alloc: Global,
    plan: &Plan,
    ty: &ShownType,
    root: &Cell,
    words: &[String],
) -> Result<Cell, Stop>
    requires { length words.now ≤ 64 }
    ensures answer { Answers (ProofOf (map string_bytes words.now) (schema_view plan.now.0) (type_by ty.now) root.now)
        (λ tree. tree) result }
    ensures small { IfOk result (λ proof. unfolded proof ≤ 262144) }
{
    let begun = paths_of(alloc, words)?;
    proof_of(alloc, plan, ty, root, begun.paths.as_slice(), begun.bad)
}

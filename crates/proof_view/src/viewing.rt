//! What a proof shows.
ghost use Rattle.std.specs.Prelude.{◌↔◌, IsTrue};
ghost use Rattle.accepted_schema.specs.Accepted.{kept_cores};
ghost use Rattle.closed_type.specs.View.{closed_type as type_view};
ghost use Rattle.tlb_syntax.specs.View.{schema as schema_view};
ghost use Rattle.proof_laws.specs.Viewing.{IsRoot};
ghost use Rattle.proof_view.specs.Viewed.{Answers};

use crate::error::ViewError;
use crate::sealed::sealed;
use accepted_pruning::laws::one_view_answer;
use cell_nodes::{Cell, Mode};
use closed_type::ClosedType;
use field_plan::Plan;
use std::alloc::Global;
use typed_reader::{ReadError, read};
use typed_value::Value;

/// What a proof shows: the value with its hidden parts, and the hash at level 0 of the tree that the proof is of.
#[derive(Drop)]
pub struct Viewed {
    pub value: Value,
    pub hash: [u8; 32],
}

/// Whether the hash is the one that was given, where one was.
fn is_root(root: &Option<[u8; 32]>, found: &[u8; 32]) -> bool
    ensures { IsTrue result ↔ IsRoot root.now found.now }
{
    match root {
        None => true,
        Some(given) => given == found,
    }
}

/// Reads the child of a Merkle proof at a closed type, in mode Partial, where the proof stores the child's hash and
/// depth at level 0 and that hash is the one that was given, if one was. Refusals come in the order of `ViewError`.
///
/// Who relies on the value has the hash from elsewhere: without one, the proof vouches for nothing.
pub fn view(
    alloc: Global,
    plan: &Plan,
    ty: &ClosedType,
    proof: &Cell,
    root: Option<[u8; 32]>,
) -> Result<Viewed, ViewError>
    ensures { Answers (kept_cores (schema_view plan.now.0)) (type_view ty.now) proof.now root result }
{
    one_view_answer();
    proof.good();
    let _ = plan.schema();
    let child = match sealed(proof) {
        Ok(child) => child,
        Err(error) => return Err(error),
    };
    let hash = child.hash(0);
    if !is_root(&root, &hash) {
        return Err(ViewError::WrongRoot(hash));
    }
    match read(alloc, plan, ty, child, Mode::Partial) {
        Ok(value) => Ok(Viewed { value, hash }),
        Err(ReadError::Stuck(place)) => Err(ViewError::Stuck(place)),
        Err(ReadError::NoMemory) => Err(ViewError::NoMemory),
    }
}

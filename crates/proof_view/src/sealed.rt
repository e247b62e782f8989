//! The cell of a proof against its child.
ghost use Rattle.proof_view.specs.Viewed.{Seals};

use crate::error::ViewError;
use crate::stored::{stored_depth, stored_hash};
use cell_nodes::{Cell, Kind};

/// The child of a proof that is whole and stores the hash and the depth of its child.
pub(crate) fn sealed(proof: &Cell) -> Result<&Cell, ViewError>
    ensures { Seals proof.entry.now result }
{
    if proof.kind() != Kind::Proof {
        return Err(ViewError::NotProof);
    }
    proof.good();
    let Some(child) = proof.child(0) else {
        unreachable!()
    };
    if proof.mask() != 0 {
        return Err(ViewError::NotWhole);
    }
    let (kept, found) = (stored_hash(&proof.bits()), child.hash(0));
    if kept != found {
        return Err(ViewError::HashDiffers(kept, found));
    }
    let (kept, found) = (stored_depth(&proof.bits()), child.depth(0));
    if kept != found {
        return Err(ViewError::DepthDiffers(kept, found));
    }
    Ok(child)
}

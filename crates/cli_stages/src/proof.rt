//! The stage of a proof at a closed type.
ghost use Rattle.std.specs.Prelude.{◌≡◌};
ghost use Rattle.tlb_syntax.specs.View.{schema as schema_view};
ghost use Rattle.cli_refusals.specs.Refusal.{proof};
ghost use Rattle.cli_stages.specs.Proof.{Proof};
ghost use Rattle.cli_stages.specs.Stage.{Answers, IfRefused};
ghost use Rattle.cli_stages.specs.View.{shown_by, type_by};

use crate::Stop;
use crate::cell::refused;
use crate::named_type::ShownType;
use cell_nodes::Cell;
use cli_refusals::{ProofCause, Refusal};
use field_plan::Plan;
use proof_view::{ViewError, Viewed, view};
use std::alloc::Global;

pub(crate) fn refused_by(cause: ProofCause) -> Stop
    ensures { IfRefused (λ r. r ≡ proof cause) result }
{
    Stop::Refused(Refusal::Proof(cause))
}

/// What the proof shows at the type; where a root hash is given, it has to be that of the tree that the proof is of.
pub fn shown(
    alloc: Global,
    plan: &Plan,
    ty: &ShownType,
    proof: &Cell,
    root: Option<[u8; 32]>,
) -> Result<Viewed, Stop>
    ensures { Answers (Proof root (schema_view plan.now.0) (type_by ty.now) proof.now) shown_by result }
{
    // Nothing in it is passed over.
    let _schema = plan.schema();
    match view(alloc, plan, &ty.closed, proof, root) {
        Ok(viewed) => Ok(viewed),
        Err(ViewError::NotProof) => Err(refused_by(ProofCause::NotProof)),
        Err(ViewError::NotWhole) => Err(refused_by(ProofCause::NotWhole)),
        Err(ViewError::HashDiffers(kept, found)) => Err(refused_by(ProofCause::HashDiffers(
            kept, found,
        ))),
        Err(ViewError::DepthDiffers(kept, found)) => Err(refused_by(ProofCause::DepthDiffers(
            kept, found,
        ))),
        Err(ViewError::WrongRoot(found)) => Err(refused_by(ProofCause::WrongRoot(found))),
        Err(ViewError::Stuck(place)) => Err(refused(alloc, plan, ty, &place)),
        Err(ViewError::NoMemory) => Err(Stop::NoMemory),
    }
}

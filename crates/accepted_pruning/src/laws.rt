//! What follows from the definitions alone, for every accepted schema. Each function states one law.
ghost use Rattle.accepted_pruning.specs.Laws.{AcceptedNamesApart, KnowsExactly, NamedIsKnown, OneLaid, OneProveAnswer};
ghost use Rattle.accepted_pruning.specs.Laws.{OneViewAnswer, ProveThenView, PrunedTreeReads, PruningCommutes};

use accepted_spelling::laws::accepted_is_acceptable;
use tlb_kinds::laws::kept_stays_within;

/// In an accepted schema no two fields of a record are shown by one name.
pub fn accepted_names_apart()
    ensures { AcceptedNamesApart }
{
    kept_stays_within();
}

/// Pruning commutes with reading, in a tree of mask 0.
pub fn pruning_commutes()
    ensures { PruningCommutes }
{
    accepted_names_apart();
    pruning_laws::laws::pruning_commutes();
}

/// Any pruned tree of a tree of mask 0 is the pruned branch that stands for the whole, or reads as the value blanked
/// where it is pruned; trees that stand in the value as they are may be pruned further.
pub fn pruned_tree_reads()
    ensures { PrunedTreeReads }
{
    accepted_names_apart();
    pruning_laws::laws::pruned_tree_reads();
}

/// Where the references that no chosen path keeps are hidden, of the chosen paths that name something those are Known
/// that lead to a value, and those are KnownAbsent that name an absent key.
pub fn named_is_known()
    ensures { NamedIsKnown }
{
    accepted_names_apart();
    pruning_laws::laws::named_is_known();
}

/// Where references of a value are hidden, a path is not known exactly where one of these stands on its way.
pub fn knows_exactly()
    ensures { KnowsExactly }
{
    accepted_names_apart();
    proof_laws::laws::knows_exactly();
}

/// A root cell has at most one laid reading at a type.
pub fn one_laid()
    ensures { OneLaid }
{
    accepted_is_acceptable();
    proof_laws::laws::one_laid();
}

/// Making a proof of chosen paths has exactly one answer.
pub fn one_prove_answer()
    ensures { OneProveAnswer }
{
    accepted_is_acceptable();
    proof_laws::laws::one_prove_answer();
}

/// Reading a proof has exactly one answer.
pub fn one_view_answer()
    ensures { OneViewAnswer }
{
    accepted_is_acceptable();
    proof_laws::laws::one_view_answer();
}

/// What is proved is read as the value with just the references unknown that no path keeps, and with the tree's hash.
pub fn prove_then_view()
    ensures { ProveThenView }
{
    accepted_names_apart();
    proof_laws::laws::prove_then_view();
}

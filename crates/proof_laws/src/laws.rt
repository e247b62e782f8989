//! What follows from the definitions alone. Each function states one law; its body is empty.
ghost use Rattle.proof_laws.specs.Laws.{KnowsExactly, LaidIsRead, OneLaid, OneProveAnswer, OneViewAnswer, ProofCell};
ghost use Rattle.proof_laws.specs.Laws.{ProveThenView, PrunedIsLow};

/// A laid reading is a reading of its plain value, and each reading in mode Whole is one of a laid value.
pub fn laid_is_read()
    ensures { LaidIsRead }
{}

/// A root cell has at most one laid reading at a type.
pub fn one_laid()
    ensures { OneLaid }
{}

/// In a pruned tree of a tree of mask 0 each node that stands below ordinary nodes alone has the mask 0 or 1.
pub fn pruned_is_low()
    ensures { PrunedIsLow }
{}

/// The cell of a proof: its mask, what it stores, its depth and its hash.
pub fn proof_cell()
    ensures { ProofCell }
{}

/// Making a proof of chosen paths has exactly one answer.
pub fn one_prove_answer()
    ensures { OneProveAnswer }
{}

/// Reading a proof has exactly one answer.
pub fn one_view_answer()
    ensures { OneViewAnswer }
{}

/// Where references of a value are hidden, a path is not known exactly where one of these stands on its way.
pub fn knows_exactly()
    ensures { KnowsExactly }
{}

/// What is proved is read as the value with just the references unknown that no path keeps, and with the tree's hash.
pub fn prove_then_view()
    ensures { ProveThenView }
{}

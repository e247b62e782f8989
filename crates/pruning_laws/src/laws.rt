//! What follows from the definitions alone. Each function states one law; its body is empty.
ghost use Rattle.pruning_laws.specs.Laws.{AbsenceHasNoValue, NamedIsKnown, PrunedTreeReads, PruningCommutes};
ghost use Rattle.pruning_laws.specs.Laws.{ReadingIsLaid};

/// A value that is read whole lies in its cells: beside each reference stands the cell that it leads to, and of each
/// map its edges.
pub fn reading_is_laid()
    ensures { ReadingIsLaid }
{}

/// Pruning commutes with reading, in a tree of mask 0: hiding the references that no chosen path keeps gives a tree
/// with the hash and the depth of the old one, which reads as the value with just these references hidden. Of each
/// chosen path it is known whether it leads to a value.
pub fn pruning_commutes()
    ensures { PruningCommutes }
{}

/// Any pruned tree of a tree of mask 0 that reads is the pruned branch that stands for it, or reads as the value with
/// the references hidden where it has pruned branches; trees that stand in a value as they are may be pruned further.
pub fn pruned_tree_reads()
    ensures { PrunedTreeReads }
{}

/// A path that names an absent key leads to no value.
pub fn absence_has_no_value()
    ensures { AbsenceHasNoValue }
{}

/// Where the references that no chosen path keeps are hidden, of the chosen paths that name something those are Known
/// that lead to a value, and those are KnownAbsent that name an absent key.
pub fn named_is_known()
    ensures { NamedIsKnown }
{}

//! What follows from the definitions alone.
ghost use Rattle.kind_terms.specs.Laws.{FreeWords};

/// A word is free where it is neither a built-in one nor that of a dictionary.
pub fn free_words()
    ensures { FreeWords }
{}

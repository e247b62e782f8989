//! What follows from the definitions alone.
ghost use Rattle.tlb_kinds.specs.Laws.{KeptHasNoDictionary, KeptIsOrdinary, KeptStaysWithin, KindedStays, PassedOver};
ghost use Rattle.tlb_kinds.specs.Laws.{WholeIsKept};

/// A schema without a refusal has none without the declarations that are passed over.
pub fn kinded_stays()
    ensures { KindedStays }
{}

/// The declarations of exotic cells and of dictionaries are passed over once.
pub fn passed_over()
    ensures { PassedOver }
{}

/// No declaration of exotic cells is left.
pub fn kept_is_ordinary()
    ensures { KeptIsOrdinary }
{}

/// No declaration of a dictionary is left.
pub fn kept_has_no_dictionary()
    ensures { KeptHasNoDictionary }
{}

/// A schema within the limits stays within them without the declarations that are passed over.
pub fn kept_stays_within()
    ensures { KeptStaysWithin }
{}

/// What is left of a schema within the limits and without a refusal is within them and without one, and no declaration
/// is left that is passed over.
pub fn whole_is_kept()
    ensures { WholeIsKept }
{}

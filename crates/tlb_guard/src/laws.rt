//! What follows from the definitions alone.
ghost use Rattle.tlb_guard.specs.Laws.{EmptyStays, ExposedStays, OneClass, ReachedWithinTypeCount};

/// A name is a variable exactly where it stands alone and is in scope; else it is what its word is.
pub fn one_class()
    ensures { OneClass }
{}

/// No later round of what may take nothing differs.
pub fn empty_stays()
    ensures { EmptyStays }
{}

/// No later round of what is exposed differs.
pub fn exposed_stays()
    ensures { ExposedStays }
{}

/// What is reached at all is reached by at most as many edges as there are declared types.
pub fn reached_within_type_count()
    ensures { ReachedWithinTypeCount }
{}

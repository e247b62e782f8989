//! What follows from the definitions alone. Each function states one law; its body is empty.
ghost use Rattle.spelling_laws.specs.Laws.{HasMarks, LeadsHold, OneConstructor, OneSpelling, ReadIsExact, ReadOrStuck, ReaderIsComplete, ReaderIsSound, ReaderStops, StuckStops};

/// What the plain reader reads is a reading.
pub fn reader_is_sound()
    ensures { ReaderIsSound }
{}

/// Each reading is read.
pub fn reader_is_complete()
    ensures { ReaderIsComplete }
{}

/// Where the plain reader stops, the reading is stuck at that place.
pub fn reader_stops()
    ensures { ReaderStops }
{}

/// Where a reading is stuck, the plain reader stops at that place.
pub fn stuck_stops()
    ensures { StuckStops }
{}

/// The plain reader gives each reading and each place where one is stuck, and nothing else.
pub fn read_is_exact()
    ensures { ReadIsExact }
{}

/// Where a constructor spells, one of its leads begins the bits.
pub fn leads_hold()
    ensures { LeadsHold }
{}

/// At most one constructor of a type can be entered.
pub fn one_constructor()
    ensures { OneConstructor }
{}

/// A content spells at most one value of a closed type, with one list of outputs and one rest.
pub fn one_spelling()
    ensures { OneSpelling }
{}

/// A root cell has one reading, or one place where it is stuck, and not both.
pub fn read_or_stuck()
    ensures { ReadOrStuck }
{}

/// A value that is spelled has its marked value, with the slice at which each reference and each map begins.
pub fn has_marks()
    ensures { HasMarks }
{}

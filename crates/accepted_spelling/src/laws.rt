//! What follows from the definitions alone, for every accepted schema. Each function states one law.
ghost use Rattle.accepted_spelling.specs.Laws.{AcceptedIsAcceptable, LeadsHold, OneConstructor, OneSpelling};
ghost use Rattle.accepted_spelling.specs.Laws.{ReadIsExact, ReadOrStuck};

use schema_core::laws::core_is_plain;
use schema_leads::laws::no_long_chain;
use tlb_kinds::laws::kept_stays_within;

/// An accepted schema has all that the laws of spelling need.
pub fn accepted_is_acceptable()
    ensures { AcceptedIsAcceptable }
{
    core_is_plain();
    kept_stays_within();
    no_long_chain();
}

/// Where a constructor spells, one of its leads begins the bits.
pub fn leads_hold()
    ensures { LeadsHold }
{
    accepted_is_acceptable();
    spelling_laws::laws::leads_hold();
}

/// At most one constructor of a type can be entered.
pub fn one_constructor()
    ensures { OneConstructor }
{
    accepted_is_acceptable();
    spelling_laws::laws::one_constructor();
}

/// The plain reader gives each reading and each place where one is stuck, and nothing else.
pub fn read_is_exact()
    ensures { ReadIsExact }
{
    accepted_is_acceptable();
    spelling_laws::laws::read_is_exact();
}

/// A content spells at most one value of a closed type, with one list of outputs and one rest.
pub fn one_spelling()
    ensures { OneSpelling }
{
    accepted_is_acceptable();
    spelling_laws::laws::one_spelling();
}

/// A root cell has one reading, or one place where it is stuck, and not both.
pub fn read_or_stuck()
    ensures { ReadOrStuck }
{
    accepted_is_acceptable();
    spelling_laws::laws::read_or_stuck();
}

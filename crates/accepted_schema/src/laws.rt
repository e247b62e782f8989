//! What follows from the definitions alone.
ghost use Rattle.accepted_schema.specs.Laws.{AcceptedHasNoRefusal, AcceptedOrRefused, AcceptedStays};
ghost use Rattle.accepted_schema.specs.Laws.{AcceptedWithoutCause, OneConstructor};

use schema_leads::laws::{separated_enter_one, separation_is_decided};
use tlb_kinds::laws::{kept_stays_within, kinded_stays, passed_over};

/// A schema without a refusal by its kinds is accepted or has a first refusal by its tags.
pub fn accepted_or_refused()
    ensures { AcceptedOrRefused }
{
    separation_is_decided();
}

/// A schema within the limits of a text is accepted exactly where it has no first refusal.
pub fn accepted_without_cause()
    ensures { AcceptedWithoutCause }
{
    separation_is_decided();
}

/// An accepted schema has no refusal by its tags.
pub fn accepted_has_no_refusal()
    ensures { AcceptedHasNoRefusal }
{
    separation_is_decided();
}

/// An accepted schema is accepted without the declarations that are passed over.
pub fn accepted_stays()
    ensures { AcceptedStays }
{
    kinded_stays();
    kept_stays_within();
    passed_over();
}

/// At most one constructor of a type has patterns that meet its input numbers and a lead that begins the bits.
pub fn one_constructor()
    ensures { OneConstructor }
{
    separated_enter_one();
}

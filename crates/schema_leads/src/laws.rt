//! What follows from the definitions alone.
ghost use Rattle.schema_leads.specs.Laws.{FirstIsExposed, NoCycle, NoLongChain, RoundsEnd, OneTable};
ghost use Rattle.schema_leads.specs.Laws.{SeparationIsDecided, SeparatedEnterOne};

use tlb_guard::laws::reached_within_type_count;

/// What a type begins with by a constructor with the empty tag is exposed in the sense of the guard.
pub fn first_is_exposed()
    ensures { FirstIsExposed }
{}

/// In a guarded schema no type begins, by one type after another, with itself.
pub fn no_cycle()
    ensures { NoCycle }
{
    reached_within_type_count();
}

/// No chain of types that begin with one another is as long as there are types.
pub fn no_long_chain()
    ensures { NoLongChain }
{
    reached_within_type_count();
}

/// No later round of the leads differs.
pub fn rounds_end()
    ensures { RoundsEnd }
{
    no_long_chain();
}

/// A table of leads that agrees with its own next round is that of the leads.
pub fn one_table()
    ensures { OneTable }
{
    no_long_chain();
}

/// The test decides which constructors are separated.
pub fn separation_is_decided()
    ensures { SeparationIsDecided }
{}

/// Of two constructors that are separated, not both can be entered.
pub fn separated_enter_one()
    ensures { SeparatedEnterOne }
{}

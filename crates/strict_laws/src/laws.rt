//! What follows from the definitions alone. Each function states one law; its body calls the laws that it rests on.
ghost use Rattle.strict_laws.specs.Laws.{LaxHasOneTree, LaxHasStrict, LaxHasTree, LaxInRange, StrictStays, WholeIsLax};

use accepted_building::laws::accepted_is_buildable;
use building_laws::laws::one_tree;

/// A good tree with a reading in mode Lax has a good tree with this reading in mode Whole, no cell of which is longer.
pub fn lax_has_tree()
    ensures { LaxHasTree }
{}

/// The reading of a good tree in mode Lax is in range.
pub fn lax_in_range()
    ensures { LaxInRange }
{}

/// There is exactly one such tree where two constructors of one type are told apart.
pub fn lax_has_one_tree()
    ensures { LaxHasOneTree }
{
    lax_has_tree();
    lax_in_range();
    one_tree();
}

/// In every accepted schema, a good tree with a reading in mode Lax has exactly one good tree with this reading in mode
/// Whole, no cell of which is longer.
pub fn lax_has_strict()
    ensures { LaxHasStrict }
{
    accepted_is_buildable();
    lax_has_one_tree();
}

/// A reading in mode Whole is one in mode Lax.
pub fn whole_is_lax()
    ensures { WholeIsLax }
{}

/// The tree in mode Whole that a tree has is that of itself.
pub fn strict_stays()
    ensures { StrictStays }
{
    whole_is_lax();
}

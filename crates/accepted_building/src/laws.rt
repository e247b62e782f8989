//! What follows from the definitions alone, for every accepted schema. Each function states one law.
ghost use Rattle.accepted_building.specs.Laws.{AcceptedIsBuildable, BuiltIsOne, StopsAtOne, TreeOrPlace};

use accepted_spelling::laws::accepted_is_acceptable;
use building_laws::laws::{
    built_is_tree, no_tree_where_unfit, one_place, one_tree, stops_where_unfit,
};
use tlb_kinds::laws::kept_stays_within;

/// An accepted schema has all that the laws of building need.
pub fn accepted_is_buildable()
    ensures { AcceptedIsBuildable }
{
    accepted_is_acceptable();
    kept_stays_within();
}

/// What the plain builder gives of a value in range is the one good tree that has the value as its reading.
pub fn built_is_one()
    ensures { BuiltIsOne }
{
    accepted_is_buildable();
    built_is_tree();
    one_tree();
}

/// Where it stops is the one place where the value is unfit, and no tree has the reading then.
pub fn stops_at_one()
    ensures { StopsAtOne }
{
    accepted_is_buildable();
    stops_where_unfit();
    one_place();
    no_tree_where_unfit();
}

/// So each value in range has one tree or is unfit at one place.
pub fn tree_or_place()
    ensures { TreeOrPlace }
{
    built_is_one();
    stops_at_one();
}

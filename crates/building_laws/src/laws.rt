//! What follows from the definitions alone. Each function states one law; its body is empty.
ghost use Rattle.building_laws.specs.Laws.{BuildIsExact, BuildThenRead, BuiltIsTree, NoTreeWhereUnfit, OnePlace, OneTree, ReadThenBuild, StopsWhereUnfit, TreeIsBuilt, TreeOrPlace, UnfitStops};

/// In modes Whole and Partial two good trees with one reading are equal.
pub fn one_tree()
    ensures { OneTree }
{}

/// In these modes the plain builder gives each good tree within the limit of cells that has the reading.
pub fn tree_is_built()
    ensures { TreeIsBuilt }
{}

/// And what it gives is such a tree.
pub fn built_is_tree()
    ensures { BuiltIsTree }
{}

/// Both as one.
pub fn build_is_exact()
    ensures { BuildIsExact }
{}

/// What is built is read as the value.
pub fn build_then_read()
    ensures { BuildThenRead }
{}

/// What is read of a good tree within the limit of cells is built to the same tree.
pub fn read_then_build()
    ensures { ReadThenBuild }
{}

/// Where a value is unfit the plain builder stops at that place.
pub fn unfit_stops()
    ensures { UnfitStops }
{}

/// So it is unfit at one place at most.
pub fn one_place()
    ensures { OnePlace }
{}

/// And has no tree then.
pub fn no_tree_where_unfit()
    ensures { NoTreeWhereUnfit }
{}

/// Where the plain builder stops, the value is unfit at that place.
pub fn stops_where_unfit()
    ensures { StopsWhereUnfit }
{}

/// So each value has a tree or is unfit at some place.
pub fn tree_or_place()
    ensures { TreeOrPlace }
{}

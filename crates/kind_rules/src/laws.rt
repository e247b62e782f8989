//! What follows from the definitions alone.
ghost use Rattle.kind_rules.specs.Laws.{OneClass};

/// Where a name stands, the type that it is used as and the variable that it is are those of its one class.
pub fn one_class()
    ensures { OneClass }
{}

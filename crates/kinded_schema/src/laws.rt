//! What follows from the definitions alone.
ghost use Rattle.kinded_schema.specs.Laws.{KeptInOrder};

/// A schema that `kind_check` keeps is in order: each name in it is looked up, each number has its form, each variable is
/// known where it is used, and no type leads back to itself before anything is taken.
pub fn kept_in_order()
    ensures { KeptInOrder }
{}

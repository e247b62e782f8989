//! What follows from the definitions alone.
ghost use Rattle.type_closing.specs.Laws.{ClosingIsClosed};

/// The closed type that an expression without a fault names is one of the schema.
pub fn closing_is_closed()
    ensures { ClosingIsClosed }
{}

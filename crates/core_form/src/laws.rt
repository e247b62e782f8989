//! What follows from the definitions alone.
ghost use Rattle.core_form.specs.Laws.{FitsAgree, NoneIsLarge, ValuedIsThere};

/// A constructor fits arguments as a relation where it does as a function, and the same is bound.
pub fn fits_agree()
    ensures { FitsAgree }
{}

/// Where each known slot is set, a number all of whose variables are known is there, however large.
pub fn valued_is_there()
    ensures { ValuedIsThere }
{}

/// Such a number has no value only where a part of it, or it itself, exceeds 2^32 − 1.
pub fn none_is_large()
    ensures { NoneIsLarge }
{}

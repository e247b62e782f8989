//! What follows from the definitions alone.
ghost use Rattle.schema_core.specs.Laws.{CoreIsPlain, CoreIsWithin, MeaningsAgree, ScopesAgree, TypesAgree};

/// Numbers of a core form have no unknown, and each equation has one, once and not under a factor 0.
pub fn core_is_plain()
    ensures { CoreIsPlain }
{}

/// Each slot of a core form is one of its constructor, but that of what has no meaning.
pub fn core_is_within()
    ensures { CoreIsWithin }
{}

/// A name in scope stands for the same by the rules on kinds and in the core form.
pub fn meanings_agree()
    ensures { MeaningsAgree }
{}

/// The names in scope are the same after the items of a record.
pub fn scopes_agree()
    ensures { ScopesAgree }
{}

/// A name is the same type by the rules on kinds and in the core form.
pub fn types_agree()
    ensures { TypesAgree }
{}

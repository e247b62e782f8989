//! What follows from the definitions alone.
ghost use Rattle.kinded_core.specs.Laws.{DeclaredAgree, GuardAgrees, KindedIsResolved};

/// In a schema of which nothing is refused, the core form of each constructor is resolved: each number of it has a meaning,
/// each equation has one unknown, each variable is set before it is used, and each parameter has its input or output.
pub fn kinded_is_resolved()
    ensures { KindedIsResolved }
{}

/// A name is a field in scope, or a word of the same class, by the guard and in the core form.
pub fn guard_agrees()
    ensures { GuardAgrees }
{}

/// A name is that of a declared type by the guard where it is so in the core form.
pub fn declared_agree()
    ensures { DeclaredAgree }
{}

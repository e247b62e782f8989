use sqlite_items::{Boxed, Items};

/// A number expression.
///
/// `Sum` keeps two or more terms and stands for their sum nested to the left. A factor that is not
/// a literal can't be written, so `Times` has one.
#[derive(Drop)]
pub enum NatExpr {
    Lit(u32),
    /// A variable, by its number.
    Var(u32),
    /// The unknown of an equation, by the number of its variable.
    Sought(u32),
    Sum(Items<NatExpr>),
    Times(u32, Boxed<NatExpr>),
}

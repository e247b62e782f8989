//! What follows from the definitions alone.
ghost use Rattle.nat_solver.specs.Laws.{OneFit, OneSolution, OthersStay, SetIsRead, SumIsTotal, ValueIsNumber};
ghost use Rattle.nat_solver.specs.Laws.{RefusedUnsolved, SolutionSolves};

/// At most one number solves an equation.
pub fn one_solution()
    ensures { OneSolution }
{}

/// The solution of an equation with one unknown is the number that solves it.
pub fn solution_solves()
    ensures { SolutionSolves }
{}

/// Where the solution of such an equation is refused, no number solves it.
pub fn refused_unsolved()
    ensures { RefusedUnsolved }
{}

/// A pattern gives at most one number.
pub fn one_fit()
    ensures { OneFit }
{}

/// An expression's value is its number where every part is at most 2^32 − 1; else it has none.
pub fn value_is_number()
    ensures { ValueIsNumber }
{}

/// A sum's value doesn't depend on how its terms are grouped.
pub fn sum_is_total()
    ensures { SumIsTotal }
{}

/// A variable that is set is read again.
pub fn set_is_read()
    ensures { SetIsRead }
{}

/// No other variable changes with it.
pub fn others_stay()
    ensures { OthersStay }
{}

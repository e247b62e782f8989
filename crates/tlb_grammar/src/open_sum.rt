//! Sums that are begun.
ghost use Rattle.std.specs.Prelude.{◌≡◌, IfOk};
ghost use Rattle.tlb_grammar.specs.Builder as plain;

use crate::state::{OpenSum, Terms};
use sqlite_items::{Boxed, Items};
use std::alloc::Global;
use tlb_memory::NoMemory;
use tlb_syntax::Expr;

// The product of the factor, if there is one, and the expression.
fn factored(alloc: Global, factor: Option<Boxed<Expr>>, e: Expr) -> Result<Expr, NoMemory>
    ensures { IfOk result (λ product. product ≡ plain.factored factor e) }
{
    match factor {
        None => Ok(e),
        Some(a) => Ok(Expr::Star(a, Boxed::new(alloc, e)?)),
    }
}

impl Terms {
    // One term more.
    fn with_term(self, alloc: Global, e: Expr) -> Result<Terms, NoMemory>
        ensures { IfOk result (λ terms. terms ≡ plain.with_term self e) }
    {
        match self {
            Terms::Zero => Ok(Terms::One(Boxed::new(alloc, e)?)),
            Terms::One(first) => {
                let second = Boxed::new(alloc, e)?;
                Ok(Terms::Several(first, second, Items::new(alloc)))
            }
            Terms::Several(first, second, mut more) => {
                more.push(e)?;
                Ok(Terms::Several(first, second, more))
            }
        }
    }

    // The sum with its last term.
    fn whole(self, alloc: Global, e: Expr) -> Result<Expr, NoMemory>
        ensures { IfOk result (λ sum. sum ≡ plain.whole self e) }
    {
        match self {
            Terms::Zero => Ok(e),
            Terms::One(first) => {
                let second = Boxed::new(alloc, e)?;
                Ok(Expr::Sum(first, second, Items::new(alloc)))
            }
            Terms::Several(first, second, mut more) => {
                more.push(e)?;
                Ok(Expr::Sum(first, second, more))
            }
        }
    }
}

impl OpenSum {
    pub(crate) fn new() -> OpenSum
        ensures { result ≡ plain.no_sum }
    {
        OpenSum {
            terms: Terms::Zero,
            factor: None,
        }
    }

    /// The sum after an operand and `*`.
    pub(crate) fn times(self, alloc: Global, e: Expr) -> Result<OpenSum, NoMemory>
        ensures { IfOk result (λ sum. sum ≡ plain.times self e) }
    {
        let OpenSum { terms, factor: _ } = self;
        Ok(OpenSum {
            terms,
            factor: Some(Boxed::new(alloc, e)?),
        })
    }

    /// The sum after an operand and `+`.
    pub(crate) fn added(self, alloc: Global, e: Expr) -> Result<OpenSum, NoMemory>
        ensures { IfOk result (λ sum. sum ≡ plain.added self e) }
    {
        let OpenSum { terms, factor } = self;
        let term = factored(alloc, factor, e)?;
        Ok(OpenSum {
            terms: terms.with_term(alloc, term)?,
            factor: None,
        })
    }

    /// The whole sum with its last operand.
    pub(crate) fn closed(self, alloc: Global, e: Expr) -> Result<Expr, NoMemory>
        ensures { IfOk result (λ whole. whole ≡ plain.closed self e) }
    {
        let OpenSum { terms, factor } = self;
        let term = factored(alloc, factor, e)?;
        terms.whole(alloc, term)
    }
}

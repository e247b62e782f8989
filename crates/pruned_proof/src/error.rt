//! Why a proof is not made.
use field_plan::Place;

/// Why a proof is not made.
#[derive(Debug, Drop)]
pub enum ProveError {
    /// The cell has no reading in mode Whole: the one place where reading stops.
    Stuck(Place),
    /// The first of the paths that names nothing, by its number from 1.
    NoSuchPath(u32),
    /// The cell's mask is not 0: it has hidden parts itself.
    NotWhole,
    /// The proof cell would be deeper than a cell may be.
    ProofTooDeep,
    /// The proof would unfold to more than 262,144 cells.
    ProofTooLarge,
    NoMemory,
}

//! Why a proof is not read.
use field_plan::Place;

/// Why a proof is not read. A pair holds what the proof stores, and then what its child has at level 0.
#[derive(Debug, Drop)]
pub enum ViewError {
    /// The cell is no Merkle proof.
    NotProof,
    /// The proof's mask is not 0: it has hidden parts that it doesn't account for.
    NotWhole,
    HashDiffers([u8; 32], [u8; 32]),
    DepthDiffers(u16, u16),
    /// A root hash was given, and the child has this one.
    WrongRoot([u8; 32]),
    /// The child has no reading: the one place where reading stops.
    Stuck(Place),
    NoMemory,
}

//! Why a value is not built.
use field_plan::Place;
use std::alloc::AllocError;
use tlb_memory::NoMemory;

/// Why a value is not built.
#[derive(Debug, Drop)]
pub enum BuildError {
    /// No tree within the limits has the value as its reading in that mode: the one place where building stops.
    Unfit(Place),
    NoMemory,
}

impl From<AllocError> for BuildError {
    ghost use Rattle.std.specs.Prelude.{◌≡◌};
    ghost use Rattle.typed_builder.specs.declared.error.BuildError.TheVariants as errors;

    ghost from_gives = { λ _ e. e ≡ errors.NoMemory };

    fn from(_: AllocError) -> BuildError {
        BuildError::NoMemory
    }
}

impl From<NoMemory> for BuildError {
    ghost use Rattle.std.specs.Prelude.{◌≡◌};
    ghost use Rattle.typed_builder.specs.declared.error.BuildError.TheVariants as errors;

    ghost from_gives = { λ _ e. e ≡ errors.NoMemory };

    fn from(_: NoMemory) -> BuildError {
        BuildError::NoMemory
    }
}

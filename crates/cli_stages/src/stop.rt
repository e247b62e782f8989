//! Why a stage gives nothing.
ghost use Rattle.std.specs.Prelude.{◌≡◌};
ghost use Rattle.cli_stages.specs.declared.stop.Stop.TheVariants.{NoMemory as Ended};

use cli_refusals::Refusal;
use tlb_memory::NoMemory;

/// Why a stage gives nothing.
#[derive(Drop)]
pub enum Stop {
    Refused(Refusal),
    NoMemory,
}

impl From<NoMemory> for Stop {
    ghost from_gives = { λ _ stop. stop ≡ Ended };

    fn from(_: NoMemory) -> Self {
        Stop::NoMemory
    }
}

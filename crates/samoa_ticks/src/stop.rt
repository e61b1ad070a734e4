//! Why a part of the work stops.
ghost use Rattle.std.specs.Prelude.{◌≡◌};
ghost use Rattle.samoa_ticks.specs.declared.stop.Stop.TheVariants.{Failed as StopFailed, Memory};

use samoa_ends::Failed;
use samoa_model::NoMemory;
use std::alloc::{AllocError, AllocFailed};

/// Why a part of the work stops.
#[derive(Clone, Copy, Debug, PartialEq, Eq)]
pub enum Stop {
    /// A read or a write failed.
    Failed,
    /// There was no memory.
    Memory,
}

impl From<Failed> for Stop {
    ghost from_gives = { λ _ stop. stop ≡ StopFailed };

    fn from(_failed: Failed) -> Stop {
        Stop::Failed
    }
}

impl From<NoMemory> for Stop {
    ghost from_gives = { λ _ stop. stop ≡ Memory };

    fn from(_error: NoMemory) -> Stop {
        Stop::Memory
    }
}

impl From<AllocError> for Stop {
    ghost from_gives = { λ _ stop. stop ≡ Memory };

    fn from(_error: AllocError) -> Stop {
        Stop::Memory
    }
}

impl<T: Drop> From<AllocFailed<T>> for Stop {
    ghost from_gives = { λ _ stop. stop ≡ Memory };

    fn from(_error: AllocFailed<T>) -> Stop {
        Stop::Memory
    }
}

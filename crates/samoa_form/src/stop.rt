//! Why a reader stopped.
ghost use Rattle.std.specs.Prelude.{◌≡◌};
ghost use Rattle.samoa_form.specs.declared.stop.Stop.TheVariants.{Memory};

use samoa_grammar::WalkFault;
use samoa_model::NoMemory;
use std::alloc::{AllocError, AllocFailed};

/// Why a script's tree wasn't read.
#[derive(Debug, Drop)]
pub enum Stop {
    /// Its first fault.
    Fault(WalkFault),
    /// There was no memory.
    Memory,
}

impl From<AllocError> for Stop {
    ghost from_gives = { λ _ e. e ≡ Memory };

    fn from(_error: AllocError) -> Stop {
        Stop::Memory
    }
}

impl<T: Drop> From<AllocFailed<T>> for Stop {
    ghost from_gives = { λ _ e. e ≡ Memory };

    fn from(_error: AllocFailed<T>) -> Stop {
        Stop::Memory
    }
}

impl From<NoMemory> for Stop {
    ghost from_gives = { λ _ e. e ≡ Memory };

    fn from(_error: NoMemory) -> Stop {
        Stop::Memory
    }
}

use mf_task::Place;
use std::alloc::{AllocError, AllocFailed};
use thiserror::Error;

/// Why there is no start row.
#[derive(Clone, Copy, Debug, Drop, PartialEq, Eq, Error)]
pub enum StartFault {
    /// A comparison is wide at the start, at this place first.
    #[error("the start is wide")]
    Wide { place: Place },
    #[error("out of memory")]
    Memory,
}

impl From<AllocError> for StartFault {
    ghost use Rattle.std.specs.Prelude.{◌≡◌};
    ghost use Rattle.mf_state.specs.declared.fault.StartFault.TheVariants as fault;

    ghost from_gives = { λ _ e. e ≡ fault.Memory };

    fn from(_: AllocError) -> StartFault {
        StartFault::Memory
    }
}

/// Why there is no list of successors.
#[derive(Clone, Copy, Debug, Drop, PartialEq, Eq, Error)]
pub enum StepFault {
    /// The live instance of this number leads out of the width: the least applicable one that does.
    #[error("an instance leads out of the width")]
    Wide { instance: u32 },
    #[error("out of memory")]
    Memory,
}

impl From<AllocError> for StepFault {
    ghost use Rattle.std.specs.Prelude.{◌≡◌};
    ghost use Rattle.mf_state.specs.declared.fault.StepFault.TheVariants as fault;

    ghost from_gives = { λ _ e. e ≡ fault.Memory };

    fn from(_: AllocError) -> StepFault {
        StepFault::Memory
    }
}

impl<T: Drop> From<AllocFailed<T>> for StepFault {
    ghost use Rattle.std.specs.Prelude.{◌≡◌};
    ghost use Rattle.mf_state.specs.declared.fault.StepFault.TheVariants as fault;

    ghost from_gives = { λ _ e. e ≡ fault.Memory };

    fn from(_: AllocFailed<T>) -> StepFault {
        StepFault::Memory
    }
}

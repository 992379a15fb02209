ghost use Rattle.std.specs.Prelude.{◌≡◌};

use std::alloc::{AllocError, AllocFailed};
use thiserror::Error;

/// There was not enough memory.
#[derive(Debug, Drop, Error)]
#[error("out of memory")]
pub struct Memory;

impl From<AllocError> for Memory {
    fn from(_: AllocError) -> Memory {
        Memory
    }
}

impl<T: Drop> From<AllocFailed<T>> for Memory {
    fn from(_: AllocFailed<T>) -> Memory {
        Memory
    }
}

/// Why there is no plan to give.
#[derive(Debug, Drop, Error)]
pub enum TraceFault {
    /// No goal was taken.
    #[error("no goal was taken")]
    NotFound,
    #[error("out of memory")]
    Memory,
}

impl From<AllocError> for TraceFault {
    ghost use Rattle.mf_plain.specs.declared.fault.TraceFault.TheVariants as fault;

    ghost from_gives = { λ _ e. e ≡ fault.Memory };

    fn from(_: AllocError) -> TraceFault {
        TraceFault::Memory
    }
}

impl<T: Drop> From<AllocFailed<T>> for TraceFault {
    ghost use Rattle.mf_plain.specs.declared.fault.TraceFault.TheVariants as fault;

    ghost from_gives = { λ _ e. e ≡ fault.Memory };

    fn from(_: AllocFailed<T>) -> TraceFault {
        TraceFault::Memory
    }
}

impl From<Memory> for TraceFault {
    ghost use Rattle.mf_plain.specs.declared.fault.TraceFault.TheVariants as fault;

    ghost from_gives = { λ _ e. e ≡ fault.Memory };

    fn from(_: Memory) -> TraceFault {
        TraceFault::Memory
    }
}

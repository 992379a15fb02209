use std::alloc::{AllocError, AllocFailed};
use thiserror::Error;

/// Why the instances of a task were not listed: the first limit that it passes, in this order.
#[derive(Clone, Copy, Debug, Drop, PartialEq, Eq, Error)]
pub enum GroundFault {
    /// More than 20,000,000 live fronts of argument lists.
    #[error("too many prefixes")]
    TooManyPrefixes,
    /// More than 1,000,000 live instances.
    #[error("too many instances")]
    TooManyInstances,
    /// More than 20,000,000 nodes.
    #[error("too many nodes")]
    TooManyNodes,
    #[error("out of memory")]
    Memory,
}

impl From<AllocError> for GroundFault {
    ghost use Rattle.std.specs.Prelude.{◌≡◌};
    ghost use Rattle.mf_ground.specs.declared.fault.GroundFault.TheVariants as fault;

    ghost from_gives = { λ _ e. e ≡ fault.Memory };

    fn from(_: AllocError) -> GroundFault {
        GroundFault::Memory
    }
}

impl<T: Drop> From<AllocFailed<T>> for GroundFault {
    ghost use Rattle.std.specs.Prelude.{◌≡◌};
    ghost use Rattle.mf_ground.specs.declared.fault.GroundFault.TheVariants as fault;

    ghost from_gives = { λ _ e. e ≡ fault.Memory };

    fn from(_: AllocFailed<T>) -> GroundFault {
        GroundFault::Memory
    }
}

use mf_fraction::Wide;
use std::alloc::{AllocError, AllocFailed};
use thiserror::Error;

/// There was not enough memory.
#[derive(Debug, Drop, Error)]
#[error("out of memory")]
pub struct Memory;

impl From<AllocError> for Memory {
    fn from(_: AllocError) -> Memory {
        Memory
    }
}

impl<T: Drop> From<AllocFailed<T>> for Memory {
    fn from(_: AllocFailed<T>) -> Memory {
        Memory
    }
}

/// Why an instance is not applicable.
#[derive(Clone, Copy, Debug, PartialEq, Eq)]
pub enum Why {
    /// Its precondition does not hold.
    Condition,
    /// A firing effect reads an undefined value, or scales down by 0.
    Undefined,
    /// The firing effects on one term are neither increases and decreases alone nor exactly one.
    Clash,
}

/// Why an instance was not applied.
#[derive(Debug, Drop, Error)]
pub enum ApplyFault {
    #[error("a value does not fit")]
    Wide,
    #[error("not applicable")]
    NotApplicable { why: Why },
    #[error("out of memory")]
    Memory,
}

impl From<Wide> for ApplyFault {
    ghost use Rattle.std.specs.Prelude.{◌≡◌};
    ghost use Rattle.mf_eval.specs.declared.fault.ApplyFault.TheVariants as fault;

    ghost from_gives = { λ _ e. e ≡ fault.Wide };

    fn from(_: Wide) -> ApplyFault {
        ApplyFault::Wide
    }
}

impl From<Memory> for ApplyFault {
    ghost use Rattle.std.specs.Prelude.{◌≡◌};
    ghost use Rattle.mf_eval.specs.declared.fault.ApplyFault.TheVariants as fault;

    ghost from_gives = { λ _ e. e ≡ fault.Memory };

    fn from(_: Memory) -> ApplyFault {
        ApplyFault::Memory
    }
}

impl From<AllocError> for ApplyFault {
    ghost use Rattle.std.specs.Prelude.{◌≡◌};
    ghost use Rattle.mf_eval.specs.declared.fault.ApplyFault.TheVariants as fault;

    ghost from_gives = { λ _ e. e ≡ fault.Memory };

    fn from(_: AllocError) -> ApplyFault {
        ApplyFault::Memory
    }
}

impl<T: Drop> From<AllocFailed<T>> for ApplyFault {
    ghost use Rattle.std.specs.Prelude.{◌≡◌};
    ghost use Rattle.mf_eval.specs.declared.fault.ApplyFault.TheVariants as fault;

    ghost from_gives = { λ _ e. e ≡ fault.Memory };

    fn from(_: AllocFailed<T>) -> ApplyFault {
        ApplyFault::Memory
    }
}

use std::alloc::{AllocError, AllocFailed};
use thiserror::Error;

/// Why a plan was not judged.
#[derive(Clone, Copy, Debug, PartialEq, Eq, Error)]
pub enum JudgeFault {
    /// A value does not fit at this step, or behind the last one, in the goal or the metric.
    #[error("a value does not fit, at step {step}")]
    Wide { step: u32 },
    #[error("out of memory")]
    Memory,
}

impl From<mf_eval::Memory> for JudgeFault {
    ghost use Rattle.std.specs.Prelude.{◌≡◌};
    ghost use Rattle.mf_validator.specs.declared.fault.JudgeFault.TheVariants as fault;

    ghost from_gives = { λ _ e. e ≡ fault.Memory };

    fn from(_: mf_eval::Memory) -> JudgeFault {
        JudgeFault::Memory
    }
}

/// What is wrong with a plan file. Lines are numbered from 1; the first line at fault is named.
#[derive(Clone, Copy, Debug, PartialEq, Eq, Error)]
pub enum PlanFault {
    /// The line is neither blank nor a step.
    #[error("line {line} is no step")]
    BadLine { line: u32 },
    /// The task has no action of this name.
    #[error("an unknown action in line {line}")]
    UnknownAction { line: u32 },
    /// An object is unknown or has none of its parameter's types, or their number is another.
    #[error("wrong arguments in line {line}")]
    WrongArguments { line: u32 },
    #[error("out of memory")]
    Memory,
}

impl From<AllocError> for PlanFault {
    ghost use Rattle.std.specs.Prelude.{◌≡◌};
    ghost use Rattle.mf_validator.specs.declared.fault.PlanFault.TheVariants as fault;

    ghost from_gives = { λ _ e. e ≡ fault.Memory };

    fn from(_: AllocError) -> PlanFault {
        PlanFault::Memory
    }
}

impl<T: Drop> From<AllocFailed<T>> for PlanFault {
    ghost use Rattle.std.specs.Prelude.{◌≡◌};
    ghost use Rattle.mf_validator.specs.declared.fault.PlanFault.TheVariants as fault;

    ghost from_gives = { λ _ e. e ≡ fault.Memory };

    fn from(_: AllocFailed<T>) -> PlanFault {
        PlanFault::Memory
    }
}

use mf_model::Span;
use std::alloc::{AllocError, AllocFailed};
use thiserror::Error;

/// Why a tree is no domain or no problem, with the span of the fault; or that memory ran out.
#[derive(Clone, Copy, Debug, Drop, PartialEq, Eq, Error)]
pub enum FormFault {
    /// A requirement that is not known.
    #[error("a requirement that is not known, at {span:?}")]
    UnknownRequirement { span: Span },
    /// A construct of PDDL that the planner leaves out.
    #[error("a construct that is left out, at {span:?}")]
    LeftOut { span: Span },
    /// A list or a word that is of no form at its place.
    #[error("of no form at its place, at {span:?}")]
    BadForm { span: Span },
    #[error("memory ran out")]
    Memory,
}

impl From<AllocError> for FormFault {
    ghost use Rattle.std.specs.Prelude.{◌≡◌};
    ghost use Rattle.mf_reader.specs.declared.fault.FormFault.TheVariants.{Memory};

    ghost from_gives = { λ _ e. e ≡ Memory };

    fn from(_error: AllocError) -> FormFault {
        FormFault::Memory
    }
}

impl<T: Drop> From<AllocFailed<T>> for FormFault {
    ghost use Rattle.std.specs.Prelude.{◌≡◌};
    ghost use Rattle.mf_reader.specs.declared.fault.FormFault.TheVariants.{Memory};

    ghost from_gives = { λ _ e. e ≡ Memory };

    fn from(_error: AllocFailed<T>) -> FormFault {
        FormFault::Memory
    }
}

use mf_model::{FileKind, Span};
use std::alloc::{AllocError, AllocFailed};
use thiserror::Error;

/// Why two files give no task: the file and the span of the fault.
#[derive(Clone, Copy, Debug, Drop, PartialEq, Eq, Error)]
pub enum NameFault {
    /// A second declaration of a name, or a second start value of a term that differs from the
    /// first.
    #[error("declared twice: {file:?}, {span:?}")]
    Twice { file: FileKind, span: Span },
    /// The first type of a cycle of parents.
    #[error("a type that descends from itself: {file:?}, {span:?}")]
    TypeCycle { file: FileKind, span: Span },
    /// A type, object, variable, predicate or function that isn't declared.
    #[error("a name that is not declared: {file:?}, {span:?}")]
    UnknownName { file: FileKind, span: Span },
    /// An atom or function term with another number of arguments than declared.
    #[error("a wrong number of arguments: {file:?}, {span:?}")]
    WrongCount { file: FileKind, span: Span },
    /// An argument that can't have a declared type.
    #[error("an argument of a wrong type: {file:?}, {span:?}")]
    WrongType { file: FileKind, span: Span },
    /// The first item beyond a limit.
    #[error("more than the limit: {file:?}, {span:?}")]
    TooMany { file: FileKind, span: Span },
    /// A number that doesn't fit.
    #[error("a number that does not fit: {file:?}, {span:?}")]
    WideNumber { file: FileKind, span: Span },
    /// A product, quotient or scaling of terms that both change.
    #[error("an expression that is not linear: {file:?}, {span:?}")]
    NotLinear { file: FileKind, span: Span },
    #[error("memory ran out")]
    Memory,
}

impl From<AllocError> for NameFault {
    ghost use Rattle.std.specs.Prelude.{◌≡◌};
    ghost use Rattle.mf_types.specs.declared.fault.NameFault.TheVariants.{Memory};

    ghost from_gives = { λ _ e. e ≡ Memory };

    fn from(_error: AllocError) -> NameFault {
        NameFault::Memory
    }
}

impl<T: Drop> From<AllocFailed<T>> for NameFault {
    ghost use Rattle.std.specs.Prelude.{◌≡◌};
    ghost use Rattle.mf_types.specs.declared.fault.NameFault.TheVariants.{Memory};

    ghost from_gives = { λ _ e. e ≡ Memory };

    fn from(_error: AllocFailed<T>) -> NameFault {
        NameFault::Memory
    }
}

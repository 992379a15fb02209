use mf_model::FileKind;
use thiserror::Error;

/// What is wrong with a file.
#[derive(Clone, Copy, Debug, PartialEq, Eq)]
pub enum RefusalKind {
    BadByte,
    WordTooLong,
    Unbalanced,
    TooDeep,
    UnknownRequirement,
    LeftOut,
    BadForm,
    DeclaredTwice,
    TypeCycle,
    UnknownName,
    WrongCount,
    WrongType,
    TooMany,
    WideNumber,
    NotLinear,
}

/// What is wrong with which file, and where: a byte offset from its start.
#[derive(Clone, Copy, Debug, PartialEq, Eq)]
pub struct Refusal {
    pub file: FileKind,
    pub kind: RefusalKind,
    pub at: u32,
}

/// Why two files give no task.
#[derive(Clone, Copy, Debug, Drop, Error)]
pub enum InputFault {
    #[error("a file is refused: {refusal:?}")]
    Refused { refusal: Refusal },
    #[error("memory ran out")]
    Memory,
}

/// Why one file gives no domain or problem.
#[derive(Clone, Copy, Debug, Drop)]
pub(crate) enum FileFault {
    Refused { kind: RefusalKind, at: u32 },
    Memory,
}

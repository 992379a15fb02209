use std::alloc::{AllocError, AllocFailed};
use thiserror::Error;

/// Why a file has no tokens. A place is a byte offset from the start of the file.
#[derive(Clone, Copy, Debug, PartialEq, Eq, Error)]
pub enum LexFault {
    /// A byte outside comments that is no blank, no bracket and not 33 to 126.
    #[error("a byte that may not stand in a file, at {at}")]
    BadByte { at: u32 },
    /// The start of a word of more than 255 bytes.
    #[error("a word of more than 255 bytes, at {at}")]
    TooLong { at: u32 },
    #[error("memory ran out")]
    Memory,
}

impl From<AllocError> for LexFault {
    ghost use Rattle.std.specs.Prelude.{◌≡◌};
    ghost use Rattle.mf_lex.specs.declared.fault.LexFault.TheVariants.{Memory};

    ghost from_gives = { λ _ e. e ≡ Memory };

    fn from(_error: AllocError) -> LexFault {
        LexFault::Memory
    }
}

/// Why the tokens of a file are not those of one list.
#[derive(Clone, Copy, Debug, PartialEq, Eq, Error)]
pub enum TreeFault {
    /// The first token outside the list, or the length of the file where its list isn't closed.
    #[error("the brackets do not pair, at {at}")]
    Unbalanced { at: u32 },
    /// A `(` that opens the 257th open list.
    #[error("more than 256 lists in one another, at {at}")]
    TooDeep { at: u32 },
    #[error("memory ran out")]
    Memory,
}

impl From<AllocError> for TreeFault {
    ghost use Rattle.std.specs.Prelude.{◌≡◌};
    ghost use Rattle.mf_lex.specs.declared.fault.TreeFault.TheVariants.{Memory};

    ghost from_gives = { λ _ e. e ≡ Memory };

    fn from(_error: AllocError) -> TreeFault {
        TreeFault::Memory
    }
}

impl<T: Drop> From<AllocFailed<T>> for TreeFault {
    ghost use Rattle.std.specs.Prelude.{◌≡◌};
    ghost use Rattle.mf_lex.specs.declared.fault.TreeFault.TheVariants.{Memory};

    ghost from_gives = { λ _ e. e ≡ Memory };

    fn from(_error: AllocFailed<T>) -> TreeFault {
        TreeFault::Memory
    }
}

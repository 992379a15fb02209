use mf_fraction::Wide;
use std::alloc::{AllocError, AllocFailed};

/// Why a linear form was not made.
#[derive(Clone, Copy, Debug, PartialEq, Eq)]
pub(crate) enum FormFault {
    /// A defined form of some subexpression has a number that does not fit.
    Wide,
    Memory,
}

impl From<Wide> for FormFault {
    ghost use Rattle.std.specs.Prelude.{◌≡◌};
    ghost use Rattle.mf_normal.specs.declared.fault.FormFault.TheVariants as fault;

    ghost from_gives = { λ _ e. e ≡ fault.Wide };

    fn from(_: Wide) -> FormFault {
        FormFault::Wide
    }
}

impl From<AllocError> for FormFault {
    ghost use Rattle.std.specs.Prelude.{◌≡◌};
    ghost use Rattle.mf_normal.specs.declared.fault.FormFault.TheVariants as fault;

    ghost from_gives = { λ _ e. e ≡ fault.Memory };

    fn from(_: AllocError) -> FormFault {
        FormFault::Memory
    }
}

impl<T: Drop> From<AllocFailed<T>> for FormFault {
    ghost use Rattle.std.specs.Prelude.{◌≡◌};
    ghost use Rattle.mf_normal.specs.declared.fault.FormFault.TheVariants as fault;

    ghost from_gives = { λ _ e. e ≡ fault.Memory };

    fn from(_: AllocFailed<T>) -> FormFault {
        FormFault::Memory
    }
}

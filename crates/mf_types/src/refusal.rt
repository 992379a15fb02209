use std::alloc::AllocError;

/// Why a part of two files gives no part of a task: some name or number of it doesn't stand, or memory ran
/// out.
#[derive(Clone, Copy, Debug, Drop)]
pub enum Refusal {
    Refused,
    Memory,
}

impl From<AllocError> for Refusal {
    ghost use Rattle.std.specs.Prelude.{◌≡◌};
    ghost use Rattle.mf_types.specs.declared.refusal.Refusal.TheVariants.{Memory};

    ghost from_gives = { λ _ e. e ≡ Memory };

    fn from(_error: AllocError) -> Refusal {
        Refusal::Memory
    }
}

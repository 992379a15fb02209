ghost use Rattle.std.specs.Prelude.{◌≡◌, nat_eq};
ghost use Rattle.mf_permits.specs.Ledger.{is_going};

use crate::tables::Tables;
use mf_search::Entry;

/// How a search ended, or that it goes on.
#[derive(Clone, Copy, Debug)]
pub(crate) enum End {
    Going,
    Goal { state: u64 },
    Wide { state: u64, instance: u32 },
}

impl End {
    pub(crate) fn is_going(self) -> bool
        ensures { result ≡ is_going self }
    {
        matches!(self, End::Going)
    }
}

/// What a core keeps.
#[derive(Debug, Drop)]
pub(crate) struct Ledger {
    pub tables: Tables,
    /// The state that each worker has in expansion; worker 1 comes first.
    pub busy: Vec<Option<u64>>,
    pub entries: Vec<Entry>,
    /// How many states were taken.
    pub takes: u64,
    pub end: End,
    pub halted: bool,
    /// How many states may be taken.
    pub budget: u64,
}

impl Ledger {
    /// Whether as many states were taken as the budget allows.
    pub(crate) fn is_spent(&self) -> bool
        ensures { result ≡ nat_eq self.now.takes self.now.budget }
    {
        self.takes == self.budget
    }
}

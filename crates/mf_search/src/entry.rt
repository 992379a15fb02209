ghost use Rattle.std.specs.Prelude.{◌≡◌};
ghost use Rattle.mf_search.specs.World.{taken_by};

/// One step of a history, by the worker that makes it. States are numbered from 0 as they are opened.
#[derive(Clone, Copy, Debug, PartialEq, Eq)]
pub enum Entry {
    /// The worker takes an open state, to expand it; the take of a goal ends the search.
    Take {
        worker: u16,
        state: u64,
    },
    /// The worker has expanded its state: the state's children are opened.
    Done {
        worker: u16,
        state: u64,
    },
    /// The worker's state has no successor list, since this instance leads out of the width. It ends the search.
    Wide {
        worker: u16,
        state: u64,
        instance: u32,
    },
}

impl Entry {
    /// The number of the state that the entry takes; none where it takes none.
    pub fn taken(self) -> Option<u64>
        ensures { result ≡ taken_by self }
    {
        match self {
            Entry::Take { state, .. } => Some(state),
            _ => None,
        }
    }
}

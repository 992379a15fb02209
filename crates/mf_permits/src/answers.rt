use mf_task::{Expansion, Naming};

/// The answer to a worker that asks for a state.
#[derive(Clone, Copy, Debug, PartialEq, Eq)]
pub enum Taken {
    /// The worker has the state of this number in expansion already.
    Again { state: u64 },
    /// No state is taken any more.
    Ended,
    /// The least value of a state in expansion is below that of every open state, and the worker with the lowest
    /// number that has such a state is this one.
    NotYet { worker: u16, value: u64 },
    /// The worker takes the state of this number.
    Go { state: u64 },
}

/// The answer to a worker that hands in an expansion.
#[derive(Clone, Copy, Debug, PartialEq, Eq)]
pub enum Finished {
    /// The state is done, or the search has ended at it.
    Kept,
    /// The search has ended before, or was halted.
    Late,
    /// The worker has another state in expansion, or none.
    Strange { kept: Option<u64>, given: u64 },
}

/// Out of memory: the expansion, as it was.
#[derive(Drop)]
pub struct Unkept<N: Naming> {
    pub expansion: Expansion<N>,
}

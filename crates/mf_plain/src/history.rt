use mf_model::{List, PlainState};
use mf_search::{Entry, Maker, Status};

/// The opened states in the order of their numbers, with the value and the maker of each, and what the
/// search did, step by step.
#[derive(Debug, Drop)]
pub struct History {
    pub rows: List<PlainState>,
    /// The number of conjuncts of the goal that don't hold.
    pub values: List<u64>,
    pub makers: List<Maker>,
    pub entries: List<Entry>,
}

/// A history with its answer.
#[derive(Debug, Drop)]
pub struct Searched {
    pub history: History,
    pub status: Status,
}

//! The search of one worker over plain states: every instance is tried at each state, and an open state
//! with the fewest unmet conjuncts of the goal is taken next.
#![tactic(auto)]

mod applying;
mod fault;
mod history;
mod holding;
mod laws;
mod least;
mod listing;
mod order;
mod progress;
mod searchable;
mod searching;
mod start;
mod successors;
mod terms;
mod tracing;

pub use fault::{Memory, TraceFault};
pub use history::{History, Searched};
pub use laws::{budget_is_reached, no_plan_exists, only_one_search, takes_are_greedy};
pub use mf_search::{Entry, Maker, Status};
pub use searchable::is_searchable;
pub use searching::search;
pub use tracing::plan_of;

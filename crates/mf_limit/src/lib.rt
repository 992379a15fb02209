//! Dead ends: states from which no list of actions leads to a goal, found by the limit closure.
#![tactic(auto)]

mod chance;
mod condition;
mod dead_end;
mod gains;
mod laws;
mod repetition;
mod scene;
mod sets;

pub use dead_end::dead;
pub use laws::{dead_states_reach_no_goal, limit_closure_is_the_least_closed_family};

#[cfg(test)]
mod tests;

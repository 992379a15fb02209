//! Greedy best-first search by several workers under permits, over any space: the data of a history
//! and the laws of the search, each a public function with an empty body.
#![tactic(auto)]

mod columns;
mod entry;
mod keys;
mod laws;
mod maker;
mod numbers;
mod reaching;
mod status;
mod steps;

pub use columns::{columns_are_kept, least_is_found, parts_are_listed, workers_are_listed};
pub use entry::Entry;
pub use keys::{keys_are_ordered, open_keys_are_held};
pub use laws::{answers_are_right, more_workers, one_worker, taken_by_a_greedy_run, taken_once};
pub use maker::Maker;
pub use numbers::numbers_are_sound;
pub use reaching::{
    Fact, Moves, kept_facts_hold, no_steps_lead_to_a_goal, opened_states_are_reached,
};
pub use status::Status;
pub use steps::{
    one_child_more, one_entry_more, one_parent_more, one_take_more, running_is_not_ended,
};

#[cfg(test)]
mod tests;

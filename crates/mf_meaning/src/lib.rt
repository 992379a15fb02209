//! The laws of what tasks mean that join plain states and search states: each is a public function with an empty body,
//! and holds of every task.
#![tactic(auto)]

mod live_instances;
mod plans;
mod search_states;
mod start_values;
mod states;

pub use live_instances::{live_instances_are_those_that_pass, only_live_instances_are_applicable};
pub use plans::{plans_are_live_search_plans, plans_are_search_plans};
pub use search_states::{
    conditions_read_search_states, costs_stay_defined, reached_search_states,
    search_states_are_enough, search_states_decide, search_states_keep_costs_out,
};
pub use start_values::{constants_keep_their_values, static_atoms_stay};
pub use states::{sorted_states_are_told_apart, states_stay_sorted};

#[cfg(test)]
mod tests;

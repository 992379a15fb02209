//! What the answers of a search over packed rows say of the task as it is written.
#![tactic(auto)]

mod infinite_states;
mod laws;

pub use infinite_states::infinite_states_have_no_plan;
pub use laws::dead_rows_have_no_plan;

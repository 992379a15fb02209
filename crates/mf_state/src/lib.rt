//! Packed states: the start, the goal, and the successors of a row within the width of numbers.
#![tactic(auto)]

mod applicable;
mod changes;
mod conditions;
mod expansion;
mod fault;
mod first_row;
mod forms;
mod goal;
mod narrow;
mod next_row;
mod operation;
mod reading;
mod truth;
mod width;

pub use expansion::{Next, successors};
pub use fault::{StartFault, StepFault};
pub use first_row::start;
pub use goal::is_goal;

#[cfg(test)]
mod tests;

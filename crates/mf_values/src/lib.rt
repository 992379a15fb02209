//! What the values of states mean: a state's value is 0 exactly where the goal holds there.
#![tactic(auto)]

mod laws;

pub use laws::values_are_zero_at_goals;

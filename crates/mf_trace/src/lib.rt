//! The plan of a history: the instances that lead from the start to the goal that was taken.
#![tactic(auto)]

mod fault;
mod laws;
mod tracing;

pub use fault::TraceFault;
pub use laws::traces_are_plans;
pub use tracing::plan_of;

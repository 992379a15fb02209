//! The validator: it reads a plan file and judges a plan by the meaning of the task.
#![tactic(auto)]

mod directory;
mod fault;
mod judging;
mod laws;
mod line;
mod piece;
mod reading;
mod step;
mod verdict;
mod word;

pub use fault::{JudgeFault, PlanFault};
pub use judging::judge;
pub use laws::{plans_are_valid, verdicts_are_exact, width_is_exact};
pub use mf_eval::Why;
pub use reading::read_plan;
pub use verdict::{Reported, Verdict};

#[cfg(test)]
mod tests;

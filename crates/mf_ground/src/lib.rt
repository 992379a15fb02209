//! The live instances of a task, found along live fronts of argument lists, and how many nodes its conditions have.
#![tactic(auto)]

mod collecting;
mod counting;
mod counts;
mod course;
mod facts;
mod fault;
mod found;
mod grounding;
mod kinds;
mod listing;
mod nodes;
mod stage;
mod start;
mod static_test;
mod survey;
mod touched;

pub use fault::GroundFault;
pub use found::Instances;
pub use grounding::instances;

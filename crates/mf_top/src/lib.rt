//! The commands of the planner: from words and files to a status and the bytes that are written.
#![tactic(auto)]

mod command;
mod decision;
mod deliver;
mod grounding;
mod kinds;
mod laws;
mod load;
mod plan;
mod request;
mod search;
mod task;
#[cfg(test)]
mod tests;
mod texts;
mod validation;
mod verdicts;
mod words;

pub use command::run;
pub use deliver::Ended;
pub use grounding::ground;
pub use laws::plain_tasks_are_searched;
pub use load::GREATEST_LENGTH;
pub use plan::plan_one;
pub use request::Request;
pub use validation::validate;

//! The slow evaluator: conditions, expressions and effects on typed trees, at a plain state.
#![tactic(auto)]

mod applying;
mod atoms;
mod binding;
mod changes;
mod condition;
mod deed;
mod expression;
mod fault;
mod firing;
mod kinds;
mod leaf;
mod operation;
mod order;
mod scene;
mod sorted;
mod start;
mod stored;
mod truth;
mod values;

pub use applying::apply;
pub use condition::holds;
pub use expression::value;
pub use fault::{ApplyFault, Memory, Why};
pub use kinds::has_some_type;
pub use mf_fraction::Wide;
pub use mf_model::Truth;
pub use start::start_state;

#[cfg(test)]
mod tests;

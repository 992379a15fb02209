//! The reader of domains and problems: from a tree to what is written in it.
#![tactic(auto)]

mod actions;
mod atoms;
mod conditions;
mod domain;
mod effects;
mod expressions;
mod fault;
mod functions;
mod goals;
mod headers;
mod heads;
mod inits;
mod keys;
mod laws;
mod places;
mod problem;
mod requirements;
mod titles;
mod typed;
mod words;

pub use domain::read_domain;
pub use fault::FormFault;
pub use laws::{
    conditions_are_read, declarations_are_read, domains_are_read, effects_are_read,
    expressions_are_read, faults_stand_in_order, forms_are_unique, forms_have_no_fault,
    inits_are_read, problems_are_read, typed_lists_are_read,
};
pub use problem::read_problem;

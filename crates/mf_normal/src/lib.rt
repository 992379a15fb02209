//! The linear forms of a task's expressions, over checked numbers: the first part of the way to the packed task.
#![tactic(auto)]

mod arithmetic;
mod binding;
mod fault;
mod form;
mod lookup;
mod parts;

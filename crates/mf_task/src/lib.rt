//! The packed task of a planner: ground conditions, linear forms and effects over numbered atoms and terms, the
//! definitions of what a search over it means, and the data that carries its states.
#![tactic(auto)]

mod expander;
mod expansion;
mod form;
mod ground;
mod grown;
mod history;
mod naming;
mod place;
mod root;
mod rows;
mod task;
mod value;

pub use expander::Expander;
pub use expansion::Expansion;
pub use form::{Form, Part};
pub use ground::{GroundAction, GroundChange, GroundCond, GroundEffect};
pub use grown::{Child, Grown, Listed, Offspring};
pub use history::History;
pub use mf_fraction::Memory;
pub use mf_search::{Entry, Maker, Status};
pub use mf_store::Row;
pub use naming::Naming;
pub use place::Place;
pub use root::Root;
pub use rows::{Rows, Unclosed};
pub use task::Task;
pub use value::{HeuristicKind, Value};

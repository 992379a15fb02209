//! Names, types and numbers: the typed task of a domain and a problem.
#![tactic(auto)]

mod ancestry;
mod arguments;
mod binders;
mod building;
mod changed;
mod checking;
mod conditions;
mod cycle_marks;
mod cycles;
mod decimals;
mod declarations;
mod declared;
mod effects;
mod entering;
mod expressions;
mod fault;
mod from_top;
mod guide;
mod item_types;
mod kept;
mod laws;
mod least;
mod listing;
mod marks;
mod meaning;
mod number_at;
mod number_set;
mod places;
mod quantified;
mod refusal;
mod related_rows;
mod relation;
mod resolution;
mod scope;
mod site;
mod spans;
mod start_values;
mod tables;
mod type_row;
mod type_table;
mod upward;
mod uses;
mod words;

pub use fault::NameFault;
pub use laws::least_is_answered;
pub use least::{Fault, FaultKind};
pub use meaning::{
    faultless_files_have_a_task, objects_have_the_top_type, parameters_are_few, task_is_resolved,
    task_is_unique, task_is_valid,
};
pub use resolution::resolve;

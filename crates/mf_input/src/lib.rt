//! The task of a domain file and a problem file, or the first reason for which they are refused.
#![tactic(auto)]

mod files;
mod laws;
mod read;
mod refusal;

pub use laws::{forms_are_written, same_words_write_one_number, task_is_resolved, task_is_unique};
pub use read::read_task;
pub use refusal::{InputFault, Refusal, RefusalKind};

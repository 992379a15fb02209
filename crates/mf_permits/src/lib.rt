//! The core of a search by one to 64 workers: what was opened, taken and expanded, and who may take what next. Each
//! take and each finish is one more entry of a legal history.
#![tactic(auto)]

mod answers;
mod beginning;
mod board;
mod ending;
mod finishing;
mod history;
mod holding;
mod ledger;
mod opening;
mod permits;
mod reading;
mod reserving;
mod tables;
mod taking;

pub use answers::{Finished, Taken, Unkept};
pub use board::{Board, Busy, Refused};
pub use permits::Core;

//! The open states of a search: a set of keys whose least comes out first.
//!
//! One bucket holds the states of one value and one mark, the lowest number first. A bucket is a chain of
//! nodes of one vector, so that room for a number of keys is room in whichever buckets they fall, and no key
//! has an allocation of its own.
#![tactic(auto)]

mod bucket;
mod key;
pub mod laws;
mod memory;
mod nodes;
mod open_list;
mod search;
mod steps;

pub use key::Key;
pub use memory::Memory;
pub use open_list::OpenList;

#[cfg(test)]
mod tests;

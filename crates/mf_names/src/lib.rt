//! Names in the order in which they were entered, found by a hash table.
#![tactic(auto)]

mod names;

pub use names::Names;

#[cfg(test)]
mod tests;

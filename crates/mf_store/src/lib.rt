//! Rows of packed states, and a store that gives each row a number.
#![tactic(auto)]

mod chains;
mod laws;
mod packed_rows;
mod pages;
mod row;
mod store;
mod strip;
mod word;

pub use laws::rows_are_compared;
pub use mf_fraction::Memory;
pub use row::Row;
pub use store::Store;

#[cfg(test)]
mod tests;

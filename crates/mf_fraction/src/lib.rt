//! Exact fractions whose parts are at most 2^62 in size.
//!
//! Each operation gives the exact result in lowest terms, or says that it does not fit.
#![tactic(auto)]

mod arithmetic;
mod decimal;
mod divisor;
mod faults;
mod fraction;
pub mod laws;
mod lowest;
mod negative;
mod order;
mod text;
mod word;

pub use arithmetic::{add, div, mul, sub};
pub use decimal::{is_number, read_decimal};
pub use faults::{DivFault, Memory, NumberFault, Wide};
pub use fraction::Frac;
pub use negative::neg;
pub use order::{cmp, sign};
pub use text::write;
pub use word::{before_point, behind_point, has_minus, without_minus};

#[cfg(test)]
mod tests;

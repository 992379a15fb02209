//! The tokens of a file, and the tree of its lists.
#![tactic(auto)]

mod bytes;
mod fault;
mod growth;
mod laws;
mod lexer;
mod lists;
#[cfg(test)]
mod tests;
mod words;

pub use fault::{LexFault, TreeFault};
pub use laws::{spans_are_nested, tokens_are_unique, tokens_have_no_fault, tree_is_unique};
pub use lexer::tokens;
pub use lists::tree;
pub use words::kind;

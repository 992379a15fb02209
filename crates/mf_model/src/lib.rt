//! Data of the tokens, trees, files and tasks of a planner, and the definitions of what they mean.
#![tactic(auto)]

mod copies;
mod descent;
mod form;
mod list;
mod order;
mod shared_list;
mod short_text;
mod state;
mod task;
mod text;
mod token;
mod tree;
mod truth;
mod typed_list;

pub use descent::{HasParent, descends};
pub use form::{
    Domain, FileKind, Header, Problem, RawAction, RawCond, RawEffect, RawExpr, RawMetric, RawValue,
    Typed, Word,
};
pub use list::List;
pub use shared_list::SharedList;
pub use state::{Instance, PlainState};
pub use task::{
    Action, Atom, Cell, Cond, Effect, Expr, Metric, Object, Op, Relation, Symbol, Term, TypeName,
    TypedTask, Types, Valued,
};
pub use text::Text;
pub use token::{Kind, Span, Token, Tokens};
pub use tree::Tree;
pub use truth::Truth;
pub use typed_list::TypedList;

#[cfg(test)]
mod tests;

ghost use Rattle.std.specs.Prelude.{◌≡◌, ◌≤◌, Some, length};
ghost use Rattle.mf_model.specs.declared.task.Expr.TheVariants as expr;
ghost use Rattle.mf_types.specs.Gives.{Gives, made};
ghost use Rattle.mf_types.specs.Tables.{declared_of};
ghost use Rattle.mf_types.specs.Tasks.{AreFew};
ghost use Rattle.mf_types.specs.Typing as spec;

use super::leaves::{function, number, terms};
use crate::binders::Binders;
use crate::refusal::Refusal;
use crate::tables::Tables;
use mf_model::{Expr, List, RawExpr, Word};
use sqlite_items::{Boxed, Items};
use std::alloc::Global;

/// A function term.
fn function_term(
    alloc: Global,
    tables: &Tables,
    binders: &Binders,
    word: &Word,
    words: &[Word],
) -> Result<Expr, Refusal>
    requires few { AreFew (declared_of tables.now) }
    requires room { length binders.now ≤ 64 }
    ensures { Gives result (spec.term_expr (declared_of tables.now) word.now words.now binders.now) }
{
    let function = function(tables, word, words.len())?;
    let terms = terms(alloc, tables, binders, words)?;
    Ok(Expr::Function { function, terms })
}

/// The declared function `total-time` where there is one, else the number of steps.
fn total_time(alloc: Global, tables: &Tables) -> Result<Expr, Refusal>
    requires few { AreFew (declared_of tables.now) }
    ensures { Gives result (spec.total_time (declared_of tables.now)) }
{
    let Some(number) = tables.find_function(b"total-time".as_slice()) else {
        return Ok(Expr::TotalTime);
    };
    match tables.types_of_function(number) {
        [] => Ok(Expr::Function {
            function: number as u16,
            terms: List::new(alloc),
        }),
        [_, ..] => Err(Refusal::Refused),
    }
}

/// The difference of a part and another one, if that was read.
fn difference(left: Boxed<Expr>, right: Result<Boxed<Expr>, Refusal>) -> Result<Expr, Refusal>
    ensures { result ≡ made (expr.Difference left) right }
{
    match right {
        Ok(right) => Ok(Expr::Difference { left, right }),
        Err(refusal) => Err(refusal),
    }
}

/// The quotient of a part and another one, if that was read.
fn quotient(left: Boxed<Expr>, right: Result<Boxed<Expr>, Refusal>) -> Result<Expr, Refusal>
    ensures { result ≡ made (expr.Quotient left) right }
{
    match right {
        Ok(right) => Ok(Expr::Quotient { left, right }),
        Err(refusal) => Err(refusal),
    }
}

/// An expression over numbers.
#[tactic(auto, using(crate::proofs::Made::made_gives))]
#[cycle(expression)]
pub(crate) fn expression(
    alloc: Global,
    tables: &Tables,
    binders: &Binders,
    raw: &RawExpr,
) -> Result<Expr, Refusal>
    requires few { AreFew (declared_of tables.now) }
    requires room { length binders.now ≤ 64 }
    ensures { Gives result (spec.expr_of (declared_of tables.now) raw.now binders.now) }
{
    match raw {
        RawExpr::Number { word, .. } => Ok(Expr::Number(number(word)?)),
        RawExpr::Function {
            function,
            terms,
            ..
        } => function_term(alloc, tables, binders, function, terms.as_slice()),
        RawExpr::Sum { parts, .. } => {
            let parts = expressions(alloc, tables, binders, parts.as_slice())?;
            Ok(Expr::Sum { parts })
        }
        RawExpr::Difference { left, right, .. } => {
            let left = boxed(alloc, tables, binders, left.get())?;
            let right = boxed(alloc, tables, binders, right.get());
            difference(left, right)
        }
        RawExpr::Negative { part, .. } => {
            let part = boxed(alloc, tables, binders, part.get())?;
            Ok(Expr::Negative { part })
        }
        RawExpr::Product { parts, .. } => {
            let parts = expressions(alloc, tables, binders, parts.as_slice())?;
            Ok(Expr::Product { parts })
        }
        RawExpr::Quotient { left, right, .. } => {
            let left = boxed(alloc, tables, binders, left.get())?;
            let right = boxed(alloc, tables, binders, right.get());
            quotient(left, right)
        }
        RawExpr::TotalTime { .. } => total_time(alloc, tables),
    }
}

/// An expression as a part of another one.
#[cycle(expression)]
fn boxed(
    alloc: Global,
    tables: &Tables,
    binders: &Binders,
    raw: &RawExpr,
) -> Result<Boxed<Expr>, Refusal>
    requires few { AreFew (declared_of tables.now) }
    requires room { length binders.now ≤ 64 }
    ensures { Gives result (spec.expr_of (declared_of tables.now) raw.now binders.now) }
{
    let part = expression(alloc, tables, binders, raw)?;
    Ok(Boxed::new(alloc, part)?)
}

/// The parts of a sum or a product.
#[cycle(expression)]
fn expressions(
    alloc: Global,
    tables: &Tables,
    binders: &Binders,
    raws: &[RawExpr],
) -> Result<Items<Expr>, Refusal>
    requires few { AreFew (declared_of tables.now) }
    requires room { length binders.now ≤ 64 }
    ensures { Gives result (spec.exprs_of (declared_of tables.now) raws.now binders.now) }
{
    let mut out = Items::new(alloc);
    for raw in raws {
        let part = expression(alloc, tables, binders, raw)?;
        out.push(part)?;
    }
    Ok(out)
}

ghost use Rattle.std.specs.Prelude.{◌≡◌, map};
ghost use Rattle.mf_reader.specs.Expressions as spec;
ghost use Rattle.mf_reader.specs.Places.{expr_in};
ghost use Rattle.mf_reader.specs.Said.{Gives, each};
ghost use Rattle.mf_reader.specs.Seen.{seen};

use crate::atoms::{CallForm, call_at};
use crate::fault::FormFault;
use crate::heads::{ExprHead, expr_head_of};
use crate::places::ExprPlace;
use crate::words::{has_text, span_of, word};
use mf_model::{Kind, RawExpr, Span, Text, Tree};
use sqlite_items::{Boxed, Items};
use std::alloc::Global;

/// A word of another kind than the grammar's where an expression stands.
fn plain_expression(text: &[u8], span: Span) -> Result<RawExpr, FormFault>
    ensures { Gives result (spec.plain_expr text.now span) }
{
    if text == b"#t".as_slice() {
        Err(FormFault::LeftOut { span })
    } else {
        Err(FormFault::BadForm { span })
    }
}

/// A name where an expression stands.
fn name_expression(place: ExprPlace, text: &[u8], span: Span) -> Result<RawExpr, FormFault>
    ensures { Gives result (spec.name_expr place text.now span) }
{
    match place {
        ExprPlace::Action => Err(FormFault::BadForm { span }),
        ExprPlace::Metric => {
            if text == b"total-time".as_slice() {
                Ok(RawExpr::TotalTime { span })
            } else {
                Err(FormFault::BadForm { span })
            }
        }
    }
}

/// A word where an expression stands.
fn word_expression(
    alloc: Global,
    place: ExprPlace,
    kind: Kind,
    text: &Text,
    span: Span,
) -> Result<RawExpr, FormFault>
    ensures { Gives result (spec.word_expr place kind text.now span) }
{
    match kind {
        Kind::Number => {
            let word = word(alloc, text, span)?;
            Ok(RawExpr::Number { word, span })
        }
        Kind::Plain => plain_expression(text.as_slice(), span),
        Kind::Name => name_expression(place, text.as_slice(), span),
        _ => Err(FormFault::BadForm { span }),
    }
}

/// A function with its terms, from the items of a list.
fn call_expression(alloc: Global, span: Span, items: &[Tree]) -> Result<RawExpr, FormFault>
    ensures { Gives result (spec.call_expr span (map seen items.now)) }
{
    let CallForm {
        function,
        terms,
        span,
    } = call_at(alloc, span, items)?;
    Ok(RawExpr::Function {
        function,
        terms,
        span,
    })
}

/// Whether a list has the word `total-time` alone.
fn is_total_time(items: &[Tree]) -> bool
    ensures { result ≡ spec.is_total_time (map seen items.now) }
{
    match items {
        [head] => has_text(head, b"total-time".as_slice()),
        _ => false,
    }
}

/// The place of the head of a list.
fn head_span(span: Span, items: &[Tree]) -> Span
    ensures { result ≡ spec.head_span span (map seen items.now) }
{
    match items {
        [head, ..] => span_of(head),
        [] => span,
    }
}

/// A list without an operation where an expression stands.
fn term_expression(
    alloc: Global,
    place: ExprPlace,
    span: Span,
    items: &[Tree],
) -> Result<RawExpr, FormFault>
    ensures { Gives result (spec.term_expr place span (map seen items.now)) }
{
    match place {
        ExprPlace::Action => call_expression(alloc, span, items),
        ExprPlace::Metric => {
            if is_total_time(items) {
                Ok(RawExpr::TotalTime {
                    span: head_span(span, items),
                })
            } else {
                call_expression(alloc, span, items)
            }
        }
    }
}

/// An expression.
#[cycle(expression)]
pub(crate) fn expression(alloc: Global, place: ExprPlace, tree: &Tree) -> Result<RawExpr, FormFault>
    ensures { Gives result (expr_in place (seen tree.now)) }
{
    match tree {
        Tree::Leaf { kind, text, span } => word_expression(alloc, place, *kind, text, *span),
        Tree::Branch { items, span } => list_expression(alloc, place, *span, items.as_slice()),
    }
}

/// An expression from the items of its list.
#[cycle(expression)]
fn list_expression(
    alloc: Global,
    place: ExprPlace,
    span: Span,
    items: &[Tree],
) -> Result<RawExpr, FormFault>
    ensures { Gives result (spec.list_expr place span (map seen items.now)) }
{
    let [head, parts @ ..] = items else {
        return Err(FormFault::BadForm { span });
    };
    match expr_head_of(head) {
        ExprHead::Sum => sum(alloc, place, span, parts),
        ExprHead::Product => product(alloc, place, span, parts),
        ExprHead::Minus => minus(alloc, place, span, parts),
        ExprHead::Quotient => quotient(alloc, place, span, parts),
        ExprHead::Other => term_expression(alloc, place, span, items),
    }
}

/// An expression in a box.
#[cycle(expression)]
fn boxed(alloc: Global, place: ExprPlace, tree: &Tree) -> Result<Boxed<RawExpr>, FormFault>
    ensures { Gives result (expr_in place (seen tree.now)) }
{
    let value = expression(alloc, place, tree)?;
    Ok(Boxed::new(alloc, value)?)
}

/// Expressions in a row.
#[cycle(expression)]
fn expressions(alloc: Global, place: ExprPlace, trees: &[Tree]) -> Result<Items<RawExpr>, FormFault>
    ensures { Gives result (each (expr_in place) (map seen trees.now)) }
{
    let mut out = Items::new(alloc);
    for tree in trees {
        let part = expression(alloc, place, tree)?;
        out.push(part)?;
    }
    Ok(out)
}

/// The sum of two parts or more.
#[cycle(expression)]
fn sum(alloc: Global, place: ExprPlace, span: Span, parts: &[Tree]) -> Result<RawExpr, FormFault>
    ensures { Gives result (spec.sum_expr place span (map seen parts.now)) }
{
    match parts {
        [_, _, ..] => {
            let parts = expressions(alloc, place, parts)?;
            Ok(RawExpr::Sum { parts, span })
        }
        _ => Err(FormFault::BadForm { span }),
    }
}

/// The product of two parts or more.
#[cycle(expression)]
fn product(
    alloc: Global,
    place: ExprPlace,
    span: Span,
    parts: &[Tree],
) -> Result<RawExpr, FormFault>
    ensures { Gives result (spec.product_expr place span (map seen parts.now)) }
{
    match parts {
        [_, _, ..] => {
            let parts = expressions(alloc, place, parts)?;
            Ok(RawExpr::Product { parts, span })
        }
        _ => Err(FormFault::BadForm { span }),
    }
}

/// One part negated, or the difference of two.
#[cycle(expression)]
fn minus(alloc: Global, place: ExprPlace, span: Span, parts: &[Tree]) -> Result<RawExpr, FormFault>
    ensures { Gives result (spec.minus_expr place span (map seen parts.now)) }
{
    match parts {
        [part] => {
            let part = boxed(alloc, place, part)?;
            Ok(RawExpr::Negative { part, span })
        }
        [left, right] => {
            let left = boxed(alloc, place, left)?;
            let right = boxed(alloc, place, right)?;
            Ok(RawExpr::Difference { left, right, span })
        }
        _ => Err(FormFault::BadForm { span }),
    }
}

/// The quotient of two parts.
#[cycle(expression)]
fn quotient(
    alloc: Global,
    place: ExprPlace,
    span: Span,
    parts: &[Tree],
) -> Result<RawExpr, FormFault>
    ensures { Gives result (spec.quotient_expr place span (map seen parts.now)) }
{
    match parts {
        [left, right] => {
            let left = boxed(alloc, place, left)?;
            let right = boxed(alloc, place, right)?;
            Ok(RawExpr::Quotient { left, right, span })
        }
        _ => Err(FormFault::BadForm { span }),
    }
}

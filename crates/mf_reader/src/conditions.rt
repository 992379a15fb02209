ghost use Rattle.std.specs.Prelude.{map};
ghost use Rattle.mf_reader.specs.Conditions as spec;
ghost use Rattle.mf_reader.specs.Said.{Gives, each, mapped};
ghost use Rattle.mf_reader.specs.Atoms.{atom_at};
ghost use Rattle.mf_reader.specs.Seen.{seen};

use crate::atoms::{AtomForm, atom_at};
use crate::expressions::expression;
use crate::fault::FormFault;
use crate::heads::{CondHead, cond_head_of};
use crate::places::ExprPlace;
use crate::typed::variables;
use crate::words::{is_term, term};
use mf_model::{RawCond, Relation, Span, Tree};
use sqlite_items::{Boxed, Items};
use std::alloc::Global;

/// An atom as a condition, from the items of its list.
fn atom_condition(alloc: Global, span: Span, items: &[Tree]) -> Result<RawCond, FormFault>
    ensures { Gives result (mapped spec.atom_cond (atom_at span (map seen items.now))) }
{
    let AtomForm {
        predicate,
        terms,
        span,
    } = atom_at(alloc, span, items)?;
    Ok(RawCond::Atom {
        predicate,
        terms,
        span,
    })
}

/// A comparison of two numbers.
fn compare(
    alloc: Global,
    relation: Relation,
    span: Span,
    left: &Tree,
    right: &Tree,
) -> Result<RawCond, FormFault>
    ensures { Gives result (spec.compare_two relation span (seen left.now) (seen right.now)) }
{
    let left = expression(alloc, ExprPlace::Action, left)?;
    let right = expression(alloc, ExprPlace::Action, right)?;
    Ok(RawCond::Compare {
        relation,
        left,
        right,
        span,
    })
}

/// A comparison of two objects.
fn same(alloc: Global, span: Span, left: &Tree, right: &Tree) -> Result<RawCond, FormFault>
    ensures { Gives result (spec.same_two span (seen left.now) (seen right.now)) }
{
    let left = term(alloc, left)?;
    let right = term(alloc, right)?;
    Ok(RawCond::Same { left, right, span })
}

/// A comparison of two objects or of two numbers by `=`.
fn equal(alloc: Global, span: Span, left: &Tree, right: &Tree) -> Result<RawCond, FormFault>
    ensures { Gives result (spec.equal_two span (seen left.now) (seen right.now)) }
{
    match (is_term(left), is_term(right)) {
        (true, true) => same(alloc, span, left, right),
        (false, false) => compare(alloc, Relation::Equal, span, left, right),
        _ => Err(FormFault::BadForm { span }),
    }
}

/// The condition behind a relation.
fn comparison(
    alloc: Global,
    relation: Relation,
    span: Span,
    parts: &[Tree],
) -> Result<RawCond, FormFault>
    ensures { Gives result (spec.compare_cond relation span (map seen parts.now)) }
{
    match parts {
        [left, right] => compare(alloc, relation, span, left, right),
        _ => Err(FormFault::BadForm { span }),
    }
}

/// The condition behind an `=`.
fn equality(alloc: Global, span: Span, parts: &[Tree]) -> Result<RawCond, FormFault>
    ensures { Gives result (spec.equal_cond span (map seen parts.now)) }
{
    match parts {
        [left, right] => equal(alloc, span, left, right),
        _ => Err(FormFault::BadForm { span }),
    }
}

/// A condition.
#[cycle(condition)]
pub(crate) fn condition(alloc: Global, tree: &Tree) -> Result<RawCond, FormFault>
    ensures { Gives result (seen tree.now).cond }
{
    match tree {
        Tree::Leaf { span, .. } => Err(FormFault::BadForm { span: *span }),
        Tree::Branch { items, span } => list_condition(alloc, *span, items.as_slice()),
    }
}

/// A condition from the items of its list.
#[cycle(condition)]
fn list_condition(alloc: Global, span: Span, items: &[Tree]) -> Result<RawCond, FormFault>
    ensures { Gives result (spec.list_cond span (map seen items.now)) }
{
    let [head, parts @ ..] = items else {
        let parts = Items::new(alloc);
        return Ok(RawCond::And { parts, span });
    };
    match cond_head_of(head) {
        CondHead::Not => negation(alloc, span, parts),
        CondHead::And => conjunction(alloc, span, parts),
        CondHead::Or => disjunction(alloc, span, parts),
        CondHead::Imply => implication(alloc, span, parts),
        CondHead::All => universal(alloc, span, parts),
        CondHead::Any => existential(alloc, span, parts),
        CondHead::Equal => equality(alloc, span, parts),
        CondHead::Compare(relation) => comparison(alloc, relation, span, parts),
        CondHead::Preference => Err(FormFault::LeftOut { span }),
        CondHead::Other => atom_condition(alloc, span, items),
    }
}

/// A condition in a box.
#[cycle(condition)]
fn boxed(alloc: Global, tree: &Tree) -> Result<Boxed<RawCond>, FormFault>
    ensures { Gives result (seen tree.now).cond }
{
    let value = condition(alloc, tree)?;
    Ok(Boxed::new(alloc, value)?)
}

/// Conditions in a row.
#[cycle(condition)]
fn conditions(alloc: Global, trees: &[Tree]) -> Result<Items<RawCond>, FormFault>
    ensures { Gives result (each (λ s. s.cond) (map seen trees.now)) }
{
    let mut out = Items::new(alloc);
    for tree in trees {
        let part = condition(alloc, tree)?;
        out.push(part)?;
    }
    Ok(out)
}

/// The condition behind a `not`.
#[cycle(condition)]
fn negation(alloc: Global, span: Span, parts: &[Tree]) -> Result<RawCond, FormFault>
    ensures { Gives result (spec.not_cond span (map seen parts.now)) }
{
    match parts {
        [part] => {
            let part = boxed(alloc, part)?;
            Ok(RawCond::Not { part, span })
        }
        _ => Err(FormFault::BadForm { span }),
    }
}

/// The condition behind an `and`.
#[cycle(condition)]
fn conjunction(alloc: Global, span: Span, parts: &[Tree]) -> Result<RawCond, FormFault>
    ensures { Gives result (spec.and_cond span (map seen parts.now)) }
{
    let parts = conditions(alloc, parts)?;
    Ok(RawCond::And { parts, span })
}

/// The condition behind an `or`.
#[cycle(condition)]
fn disjunction(alloc: Global, span: Span, parts: &[Tree]) -> Result<RawCond, FormFault>
    ensures { Gives result (spec.or_cond span (map seen parts.now)) }
{
    let parts = conditions(alloc, parts)?;
    Ok(RawCond::Or { parts, span })
}

/// The condition behind an `imply`.
#[cycle(condition)]
fn implication(alloc: Global, span: Span, parts: &[Tree]) -> Result<RawCond, FormFault>
    ensures { Gives result (spec.imply_cond span (map seen parts.now)) }
{
    match parts {
        [left, right] => {
            let left = boxed(alloc, left)?;
            let right = boxed(alloc, right)?;
            Ok(RawCond::Imply { left, right, span })
        }
        _ => Err(FormFault::BadForm { span }),
    }
}

/// The condition behind a `forall`.
#[cycle(condition)]
fn universal(alloc: Global, span: Span, parts: &[Tree]) -> Result<RawCond, FormFault>
    ensures { Gives result (spec.all_cond span (map seen parts.now)) }
{
    match parts {
        [list, part] => {
            let variables = variables(alloc, list)?;
            let part = boxed(alloc, part)?;
            Ok(RawCond::All {
                variables,
                part,
                span,
            })
        }
        _ => Err(FormFault::BadForm { span }),
    }
}

/// The condition behind an `exists`.
#[cycle(condition)]
fn existential(alloc: Global, span: Span, parts: &[Tree]) -> Result<RawCond, FormFault>
    ensures { Gives result (spec.any_cond span (map seen parts.now)) }
{
    match parts {
        [list, part] => {
            let variables = variables(alloc, list)?;
            let part = boxed(alloc, part)?;
            Ok(RawCond::Any {
                variables,
                part,
                span,
            })
        }
        _ => Err(FormFault::BadForm { span }),
    }
}

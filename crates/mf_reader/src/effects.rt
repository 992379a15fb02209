ghost use Rattle.std.specs.Prelude.{map};
ghost use Rattle.mf_reader.specs.Effects as spec;
ghost use Rattle.mf_reader.specs.Atoms.{atom_at};
ghost use Rattle.mf_reader.specs.Places.{effect_in};
ghost use Rattle.mf_reader.specs.Said.{Gives, each, mapped};
ghost use Rattle.mf_reader.specs.Seen.{seen};

use crate::atoms::{AtomForm, CallForm, atom, atom_at, call};
use crate::conditions::condition;
use crate::expressions::expression;
use crate::fault::FormFault;
use crate::heads::{EffectHead, effect_head_of};
use crate::places::{EffectPlace, ExprPlace};
use crate::typed::variables;
use mf_model::{Op, RawEffect, Span, Tree};
use sqlite_items::{Boxed, Items};
use std::alloc::Global;

/// An atom that is added, from the items of its list.
fn addition(alloc: Global, span: Span, items: &[Tree]) -> Result<RawEffect, FormFault>
    ensures { Gives result (mapped spec.added (atom_at span (map seen items.now))) }
{
    let AtomForm {
        predicate,
        terms,
        span,
    } = atom_at(alloc, span, items)?;
    Ok(RawEffect::Add {
        predicate,
        terms,
        span,
    })
}

/// The effect behind a `not`.
fn deletion(alloc: Global, span: Span, parts: &[Tree]) -> Result<RawEffect, FormFault>
    ensures { Gives result (spec.not_effect span (map seen parts.now)) }
{
    match parts {
        [part] => {
            let AtomForm {
                predicate,
                terms,
                ..
            } = atom(alloc, part)?;
            Ok(RawEffect::Delete {
                predicate,
                terms,
                span,
            })
        }
        _ => Err(FormFault::BadForm { span }),
    }
}

/// The effect behind an operator.
fn change(alloc: Global, op: Op, span: Span, parts: &[Tree]) -> Result<RawEffect, FormFault>
    ensures { Gives result (spec.change_effect op span (map seen parts.now)) }
{
    match parts {
        [target, value] => {
            let CallForm {
                function,
                terms,
                ..
            } = call(alloc, target)?;
            let value = expression(alloc, ExprPlace::Action, value)?;
            Ok(RawEffect::Change {
                op,
                function,
                terms,
                value,
                span,
            })
        }
        _ => Err(FormFault::BadForm { span }),
    }
}

/// An effect.
#[cycle(effect)]
pub(crate) fn effect(alloc: Global, place: EffectPlace, tree: &Tree) -> Result<RawEffect, FormFault>
    ensures { Gives result (effect_in place (seen tree.now)) }
{
    match tree {
        Tree::Leaf { span, .. } => Err(FormFault::BadForm { span: *span }),
        Tree::Branch { items, span } => list_effect(alloc, place, *span, items.as_slice()),
    }
}

/// An effect from the items of its list.
#[cycle(effect)]
fn list_effect(
    alloc: Global,
    place: EffectPlace,
    span: Span,
    items: &[Tree],
) -> Result<RawEffect, FormFault>
    ensures { Gives result (spec.list_effect place span (map seen items.now)) }
{
    let [head, parts @ ..] = items else {
        let parts = Items::new(alloc);
        return Ok(RawEffect::Group { parts, span });
    };
    match effect_head_of(head) {
        EffectHead::Not => deletion(alloc, span, parts),
        EffectHead::And => group(alloc, place, span, parts),
        EffectHead::All => universal(alloc, place, span, parts),
        EffectHead::When => conditional(alloc, place, span, parts),
        EffectHead::Change(op) => change(alloc, op, span, parts),
        EffectHead::Other => addition(alloc, span, items),
    }
}

/// An effect in a box.
#[cycle(effect)]
fn boxed(alloc: Global, place: EffectPlace, tree: &Tree) -> Result<Boxed<RawEffect>, FormFault>
    ensures { Gives result (effect_in place (seen tree.now)) }
{
    let value = effect(alloc, place, tree)?;
    Ok(Boxed::new(alloc, value)?)
}

/// Effects in a row.
#[cycle(effect)]
fn effects(alloc: Global, place: EffectPlace, trees: &[Tree]) -> Result<Items<RawEffect>, FormFault>
    ensures { Gives result (each (effect_in place) (map seen trees.now)) }
{
    let mut out = Items::new(alloc);
    for tree in trees {
        let part = effect(alloc, place, tree)?;
        out.push(part)?;
    }
    Ok(out)
}

/// The effect behind an `and`.
#[cycle(effect)]
fn group(
    alloc: Global,
    place: EffectPlace,
    span: Span,
    parts: &[Tree],
) -> Result<RawEffect, FormFault>
    ensures { Gives result (spec.and_effect place span (map seen parts.now)) }
{
    let parts = effects(alloc, place, parts)?;
    Ok(RawEffect::Group { parts, span })
}

/// The effect behind a `forall`.
#[cycle(effect)]
fn universal(
    alloc: Global,
    place: EffectPlace,
    span: Span,
    parts: &[Tree],
) -> Result<RawEffect, FormFault>
    ensures { Gives result (spec.all_effect place span (map seen parts.now)) }
{
    match parts {
        [list, part] => {
            let variables = variables(alloc, list)?;
            let part = boxed(alloc, place, part)?;
            Ok(RawEffect::Each {
                variables,
                part,
                span,
            })
        }
        _ => Err(FormFault::BadForm { span }),
    }
}

/// The effect behind a `when`, of which none stands inside another.
#[cycle(effect)]
fn conditional(
    alloc: Global,
    place: EffectPlace,
    span: Span,
    parts: &[Tree],
) -> Result<RawEffect, FormFault>
    ensures { Gives result (spec.when_effect place span (map seen parts.now)) }
{
    match place {
        EffectPlace::When => Err(FormFault::LeftOut { span }),
        EffectPlace::Action => when(alloc, span, parts),
    }
}

/// The effect behind a `when` that stands in no other.
#[cycle(effect)]
fn when(alloc: Global, span: Span, parts: &[Tree]) -> Result<RawEffect, FormFault>
    ensures { Gives result (spec.outer_when span (map seen parts.now)) }
{
    match parts {
        [condition_tree, part] => {
            let condition = condition(alloc, condition_tree)?;
            let part = boxed(alloc, EffectPlace::When, part)?;
            Ok(RawEffect::When {
                condition,
                part,
                span,
            })
        }
        _ => Err(FormFault::BadForm { span }),
    }
}

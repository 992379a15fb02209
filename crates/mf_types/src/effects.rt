ghost use Rattle.std.specs.Prelude.{◌≡◌, IfOk, OnOk, map};
ghost use Rattle.mf_types.specs.Conditions.{all_faults, both_faults, cond_faults};
ghost use Rattle.mf_types.specs.Effects as spec;
ghost use Rattle.mf_types.specs.Faults.{after};
ghost use Rattle.mf_types.specs.Quantified.{quantified};
ghost use Rattle.mf_types.specs.Sites.{site_of};

use crate::arguments::{atom, function};
use crate::conditions::condition;
use crate::expressions::{expression, linear};
use crate::least::Fault;
use crate::quantified::variables;
use crate::scope::{Scope, enter};
use crate::site::Site;
use mf_model::{List, Op, RawCond, RawEffect, RawExpr, Span, TypedList, Word};
use std::alloc::{AllocError, Global};

/// Whether an effect with such a value is linear: a scaling only by a constant.
fn fits(op: Op, constant: bool) -> bool
    ensures { result ≡ spec.fits_op op constant }
{
    match op {
        Op::Assign => true,
        Op::Increase => true,
        Op::Decrease => true,
        Op::ScaleUp => constant,
        Op::ScaleDown => constant,
    }
}

/// The faults of a numeric effect.
#[tactic(auto, using(crate::proofs::After::after_append))]
fn change(
    site: &Site<'_>,
    best: Option<Fault>,
    scope: &Scope,
    op: Op,
    name: &Word,
    terms: &List<Word>,
    value: &RawExpr,
    span: Span,
) -> Option<Fault>
    ensures { result ≡ after best
        (spec.change_faults (site_of site.now) op name.now terms.now value.now span scope.now) }
{
    let best = function(site, best, scope, name, terms.as_slice());
    let value = expression(site, best, scope, value);
    linear(site, value.best, span, fits(op, value.constant))
}

/// The faults of an effect. The scope is as before, unless memory ran out.
#[cycle(effect)]
pub(crate) fn effect(
    alloc: Global,
    site: &Site<'_>,
    best: Option<Fault>,
    scope: &mut Scope,
    raw: &RawEffect,
) -> Result<Option<Fault>, AllocError>
    ensures value { IfOk result (λ b. b ≡ after best
        (spec.effect_faults (site_of site.now) raw.now scope.old)) }
    ensures same { OnOk result (scope.new ≡ scope.old) }
{
    match raw {
        RawEffect::Add {
            predicate,
            terms,
            ..
        } => Ok(atom(site, best, scope, predicate, terms.as_slice())),
        RawEffect::Delete {
            predicate,
            terms,
            ..
        } => Ok(atom(site, best, scope, predicate, terms.as_slice())),
        RawEffect::Change {
            op,
            function,
            terms,
            value,
            span,
        } => { Ok(change(site, best, scope, *op, function, terms, value, *span)) }
        RawEffect::Group { parts, .. } => effects(alloc, site, best, scope, parts.as_slice()),
        RawEffect::Each {
            variables,
            part,
            ..
        } => each(alloc, site, best, scope, variables, part.get()),
        RawEffect::When {
            condition,
            part,
            ..
        } => when(alloc, site, best, scope, condition, part.get()),
    }
}

#[cycle(effect)]
fn effects(
    alloc: Global,
    site: &Site<'_>,
    mut best: Option<Fault>,
    scope: &mut Scope,
    parts: &[RawEffect],
) -> Result<Option<Fault>, AllocError>
    ensures value { IfOk result (λ b. b ≡ after best
        (all_faults (map (spec.effect_faults (site_of site.now)) parts.now) scope.old)) }
    ensures same { OnOk result (scope.new ≡ scope.old) }
{
    for part in parts {
        best = effect(alloc, site, best, scope, part)?;
    }
    Ok(best)
}

/// The faults of a condition, and of the effect that it guards.
#[cycle(effect)]
fn when(
    alloc: Global,
    site: &Site<'_>,
    best: Option<Fault>,
    scope: &mut Scope,
    guard: &RawCond,
    part: &RawEffect,
) -> Result<Option<Fault>, AllocError>
    ensures value { IfOk result (λ b. b ≡ after best
        (both_faults (cond_faults (site_of site.now) guard.now)
        (spec.effect_faults (site_of site.now) part.now) scope.old)) }
    ensures same { OnOk result (scope.new ≡ scope.old) }
{
    let best = condition(alloc, site, best, scope, guard)?;
    effect(alloc, site, best, scope, part)
}

/// The faults of a quantifier's variables, and of its part under them.
#[cycle(effect)]
#[tactic(auto, using(crate::proofs::After::after_append))]
fn each(
    alloc: Global,
    site: &Site<'_>,
    best: Option<Fault>,
    scope: &mut Scope,
    items: &TypedList,
    part: &RawEffect,
) -> Result<Option<Fault>, AllocError>
    ensures value { IfOk result (λ b. b ≡ after best
        (quantified (site_of site.now) items.now (spec.effect_faults (site_of site.now) part.now)
        scope.old)) }
    ensures same { OnOk result (scope.new ≡ scope.old) }
{
    let outer = scope.len();
    let best = variables(alloc, site, best, outer, items)?;
    enter(alloc, site.tables, scope, items)?;
    let best = effect(alloc, site, best, scope, part)?;
    scope.truncate(outer);
    Ok(best)
}

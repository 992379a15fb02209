ghost use Rattle.std.specs.Prelude.{◌≡◌, IfOk, OnOk, map};
ghost use Rattle.mf_types.specs.Conditions as spec;
ghost use Rattle.mf_types.specs.Faults.{after};
ghost use Rattle.mf_types.specs.Quantified.{quantified};
ghost use Rattle.mf_types.specs.Sites.{site_of};

use crate::arguments::{atom, term};
use crate::expressions::expression;
use crate::least::Fault;
use crate::quantified::variables;
use crate::scope::{Scope, enter};
use crate::site::Site;
use mf_model::{RawCond, RawExpr, TypedList, Word};
use std::alloc::{AllocError, Global};

/// The faults of two terms.
#[tactic(auto, using(crate::proofs::After::after_append))]
fn same(
    site: &Site<'_>,
    best: Option<Fault>,
    scope: &Scope,
    left: &Word,
    right: &Word,
) -> Option<Fault>
    ensures { result ≡ after best
        (spec.same_faults (site_of site.now) left.now right.now scope.now) }
{
    let best = term(site, best, scope, left);
    term(site, best, scope, right)
}

/// The faults of two expressions.
#[tactic(auto, using(crate::proofs::After::after_append))]
fn comparison(
    site: &Site<'_>,
    best: Option<Fault>,
    scope: &Scope,
    left: &RawExpr,
    right: &RawExpr,
) -> Option<Fault>
    ensures { result ≡ after best
        (spec.comparison_faults (site_of site.now) left.now right.now scope.now) }
{
    let left = expression(site, best, scope, left);
    expression(site, left.best, scope, right).best
}

/// The faults of a condition. The scope is as before, unless memory ran out.
#[cycle(condition)]
pub(crate) fn condition(
    alloc: Global,
    site: &Site<'_>,
    best: Option<Fault>,
    scope: &mut Scope,
    raw: &RawCond,
) -> Result<Option<Fault>, AllocError>
    ensures value { IfOk result (λ b. b ≡ after best
        (spec.cond_faults (site_of site.now) raw.now scope.old)) }
    ensures same { OnOk result (scope.new ≡ scope.old) }
{
    match raw {
        RawCond::Atom {
            predicate,
            terms,
            ..
        } => Ok(atom(site, best, scope, predicate, terms.as_slice())),
        RawCond::Same { left, right, .. } => Ok(same(site, best, scope, left, right)),
        RawCond::Compare { left, right, .. } => { Ok(comparison(site, best, scope, left, right)) }
        RawCond::Not { part, .. } => condition(alloc, site, best, scope, part.get()),
        RawCond::And { parts, .. } => conditions(alloc, site, best, scope, parts.as_slice()),
        RawCond::Or { parts, .. } => conditions(alloc, site, best, scope, parts.as_slice()),
        RawCond::Imply { left, right, .. } => {
            implication(alloc, site, best, scope, left.get(), right.get())
        }
        RawCond::All {
            variables,
            part,
            ..
        } => quantifier(alloc, site, best, scope, variables, part.get()),
        RawCond::Any {
            variables,
            part,
            ..
        } => quantifier(alloc, site, best, scope, variables, part.get()),
    }
}

#[cycle(condition)]
#[tactic(auto, using(crate::proofs::After::after_append))]
fn conditions(
    alloc: Global,
    site: &Site<'_>,
    mut best: Option<Fault>,
    scope: &mut Scope,
    parts: &[RawCond],
) -> Result<Option<Fault>, AllocError>
    ensures value { IfOk result (λ b. b ≡ after best
        (spec.all_faults (map (spec.cond_faults (site_of site.now)) parts.now) scope.old)) }
    ensures same { OnOk result (scope.new ≡ scope.old) }
{
    for part in parts {
        best = condition(alloc, site, best, scope, part)?;
    }
    Ok(best)
}

#[cycle(condition)]
#[tactic(auto, using(crate::proofs::After::after_append))]
fn implication(
    alloc: Global,
    site: &Site<'_>,
    best: Option<Fault>,
    scope: &mut Scope,
    left: &RawCond,
    right: &RawCond,
) -> Result<Option<Fault>, AllocError>
    ensures value { IfOk result (λ b. b ≡ after best
        (spec.both_faults (spec.cond_faults (site_of site.now) left.now)
        (spec.cond_faults (site_of site.now) right.now) scope.old)) }
    ensures same { OnOk result (scope.new ≡ scope.old) }
{
    let best = condition(alloc, site, best, scope, left)?;
    condition(alloc, site, best, scope, right)
}

/// The faults of a quantifier's variables, and of its part under them.
#[cycle(condition)]
#[tactic(auto, using(crate::proofs::After::after_append))]
fn quantifier(
    alloc: Global,
    site: &Site<'_>,
    best: Option<Fault>,
    scope: &mut Scope,
    items: &TypedList,
    part: &RawCond,
) -> Result<Option<Fault>, AllocError>
    ensures value { IfOk result (λ b. b ≡ after best
        (quantified (site_of site.now) items.now (spec.cond_faults (site_of site.now) part.now)
        scope.old)) }
    ensures same { OnOk result (scope.new ≡ scope.old) }
{
    let outer = scope.len();
    let best = variables(alloc, site, best, outer, items)?;
    enter(alloc, site.tables, scope, items)?;
    let best = condition(alloc, site, best, scope, part)?;
    scope.truncate(outer);
    Ok(best)
}

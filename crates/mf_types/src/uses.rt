ghost use Rattle.std.specs.Prelude.{◌≡◌, [], IfOk};
ghost use Rattle.std.specs.List.{flat_map};
ghost use Rattle.mf_types.specs.Conditions.{both_faults, cond_faults};
ghost use Rattle.mf_types.specs.Effects.{effect_faults};
ghost use Rattle.mf_types.specs.Faults.{after};
ghost use Rattle.mf_types.specs.Sites.{site_of};
ghost use Rattle.mf_types.specs.Tables.{declared_of};
ghost use Rattle.mf_types.specs.Uses as spec;

use crate::arguments::function;
use crate::conditions::condition;
use crate::effects::effect;
use crate::expressions::expression;
use crate::least::Fault;
use crate::listing::beyond;
use crate::quantified::MOST_VARIABLES;
use crate::scope::{Scope, enter};
use crate::site::Site;
use crate::tables::Tables;
use crate::words::item_words;
use mf_model::{Domain, FileKind, Problem, RawAction, RawCond, RawMetric, RawValue};
use std::alloc::{AllocError, Global};

/// The faults where the names of two files are used.
#[tactic(auto, using(crate::proofs::After::after_append))]
pub(crate) fn uses(
    alloc: Global,
    best: Option<Fault>,
    tables: &Tables,
    domain: &Domain,
    problem: &Problem,
) -> Result<Option<Fault>, AllocError>
    ensures { IfOk result (λ b. b ≡ after best
        (spec.uses_in (declared_of tables.now) domain.now problem.now)) }
{
    let best = actions(alloc, tables, best, domain.actions.as_slice())?;
    let site = Site {
        tables,
        file: FileKind::ProblemFile,
        linear: true,
    };
    let best = start(alloc, &site, best, problem)?;
    let best = closed(alloc, &site, best, &problem.goal)?;
    Ok(metric(alloc, tables, best, &problem.metric))
}

/// The faults of actions.
fn actions(
    alloc: Global,
    tables: &Tables,
    mut best: Option<Fault>,
    actions: &[RawAction],
) -> Result<Option<Fault>, AllocError>
    ensures { IfOk result (λ b. b ≡ after best
        (spec.action_faults (declared_of tables.now) actions.now)) }
{
    let site = Site {
        tables,
        file: FileKind::DomainFile,
        linear: true,
    };
    for action in actions {
        best = uses_of_action(alloc, &site, best, action)?;
    }
    Ok(best)
}

/// The faults of an action: too many parameters for a scope, and those of its condition and effect.
#[tactic(auto, using(crate::proofs::After::after_append))]
fn uses_of_action(
    alloc: Global,
    site: &Site<'_>,
    best: Option<Fault>,
    action: &RawAction,
) -> Result<Option<Fault>, AllocError>
    ensures { IfOk result (λ b. b ≡ after best
        (spec.action_use_faults (site_of site.now) action.now)) }
{
    let words = item_words(alloc, action.parameters.as_slice())?;
    let best = beyond(best, site.file, MOST_VARIABLES, words.as_slice());
    let mut scope = Scope::new(alloc);
    enter(alloc, site.tables, &mut scope, &action.parameters)?;
    let best = body(alloc, site, best, &mut scope, action)?;
    Ok(best)
}

/// The faults of the condition and the effect of an action.
fn body(
    alloc: Global,
    site: &Site<'_>,
    best: Option<Fault>,
    scope: &mut Scope,
    action: &RawAction,
) -> Result<Option<Fault>, AllocError>
    ensures { IfOk result (λ b. b ≡ after best
        (both_faults (cond_faults (site_of site.now) action.now.condition)
        (effect_faults (site_of site.now) action.now.effect) scope.old)) }
{
    let best = condition(alloc, site, best, scope, &action.condition)?;
    effect(alloc, site, best, scope, &action.effect)
}

/// The faults of the facts and the terms of the start.
#[tactic(auto, using(crate::proofs::After::after_append))]
fn start(
    alloc: Global,
    site: &Site<'_>,
    best: Option<Fault>,
    problem: &Problem,
) -> Result<Option<Fault>, AllocError>
    ensures { IfOk result (λ b. b ≡ after best
        (spec.start_faults (site_of site.now) problem.now.atoms problem.now.values)) }
{
    let best = facts(alloc, site, best, problem.atoms.as_slice())?;
    Ok(terms(alloc, site, best, problem.values.as_slice()))
}

fn facts(
    alloc: Global,
    site: &Site<'_>,
    mut best: Option<Fault>,
    facts: &[RawCond],
) -> Result<Option<Fault>, AllocError>
    ensures { IfOk result (λ b. b ≡ after best
        (flat_map (spec.closed_faults (site_of site.now)) facts.now)) }
{
    for fact in facts {
        best = closed(alloc, site, best, fact)?;
    }
    Ok(best)
}

/// The faults of the terms of start values.
fn terms(
    alloc: Global,
    site: &Site<'_>,
    mut best: Option<Fault>,
    values: &[RawValue],
) -> Option<Fault>
    ensures { result ≡ after best
        (flat_map (spec.value_term_faults (site_of site.now)) values.now) }
{
    let scope = Scope::new(alloc);
    for value in values {
        best = value_term(site, best, &scope, value);
    }
    best
}

fn value_term(
    site: &Site<'_>,
    best: Option<Fault>,
    scope: &Scope,
    value: &RawValue,
) -> Option<Fault>
    requires { scope.now ≡ [] }
    ensures { result ≡ after best (spec.value_term_faults (site_of site.now) value.now) }
{
    function(site, best, scope, &value.function, value.objects.as_slice())
}

/// The faults of a condition without variables round it.
fn closed(
    alloc: Global,
    site: &Site<'_>,
    best: Option<Fault>,
    raw: &RawCond,
) -> Result<Option<Fault>, AllocError>
    ensures { IfOk result (λ b. b ≡ after best (spec.closed_faults (site_of site.now) raw.now)) }
{
    let mut scope = Scope::new(alloc);
    condition(alloc, site, best, &mut scope, raw)
}

/// The faults of the metric, which need not be linear.
fn metric(
    alloc: Global,
    tables: &Tables,
    best: Option<Fault>,
    metric: &Option<RawMetric>,
) -> Option<Fault>
    ensures { result ≡ after best (spec.metric_faults (declared_of tables.now) metric.now) }
{
    let Some(metric) = metric else {
        return best;
    };
    let site = Site {
        tables,
        file: FileKind::ProblemFile,
        linear: false,
    };
    let scope = Scope::new(alloc);
    expression(&site, best, &scope, &metric.value).best
}

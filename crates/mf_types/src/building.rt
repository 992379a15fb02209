ghost use Rattle.std.specs.Prelude.{◌≡◌, []};
ghost use Rattle.std.specs.Bool.{OnTrue};
ghost use Rattle.mf_types.specs.Gives.{Gives};
ghost use Rattle.mf_types.specs.Tables.{declared_of};
ghost use Rattle.mf_types.specs.Tasks as spec;
ghost use Rattle.mf_types.specs.Typing.{cond_of};

mod binders;
mod conditions;
mod declarations;
mod effects;
mod expressions;
mod keys;
mod leaves;
mod narrow_rows;
mod start;

use crate::binders::Binders;
use crate::refusal::Refusal;
use crate::tables::Tables;
use binders::{enter, types};
use conditions::condition;
use declarations::{objects, symbols, type_names};
use effects::effect;
use expressions::expression;
use mf_model::{
    Action, Cond, Domain, List, Metric, Problem, RawAction, RawCond, RawMetric, TypedTask,
};
use start::{facts, values};
use std::alloc::Global;

/// An action over numbers.
#[tactic(auto, unfolding(crate::specs::Tasks::action_of))]
fn action(alloc: Global, tables: &Tables, raw: &RawAction) -> Result<Action, Refusal>
    requires few { spec.AreFew (declared_of tables.now) }
    ensures { Gives result (spec.action_of (declared_of tables.now) raw.now) }
{
    let mut binders = Binders::new(alloc);
    enter(alloc, &mut binders, raw.parameters.as_slice())?;
    let name = raw.word.text.copy(alloc)?;
    let parameters = types(alloc, tables, &raw.parameters)?;
    let condition = condition(alloc, tables, &mut binders, &raw.condition)?;
    match effect(alloc, tables, &mut binders, &raw.effect) {
        Err(refusal) => {
            drop(condition);
            Err(refusal)
        }
        Ok(effect) => Ok(Action {
            name,
            parameters,
            condition,
            effect,
        }),
    }
}

/// The actions in their order.
fn actions(alloc: Global, tables: &Tables, raws: &[RawAction]) -> Result<List<Action>, Refusal>
    requires few { spec.AreFew (declared_of tables.now) }
    ensures { Gives result (spec.actions_of (declared_of tables.now) raws.now) }
{
    let mut out = List::new(alloc);
    for raw in raws {
        let action = action(alloc, tables, raw)?;
        out.push(action)?;
    }
    Ok(out)
}

/// The goal, in which no variable is free.
fn goal(alloc: Global, tables: &Tables, raw: &RawCond) -> Result<Cond, Refusal>
    requires few { spec.AreFew (declared_of tables.now) }
    ensures { Gives result (cond_of (declared_of tables.now) raw.now []) }
{
    let mut binders = Binders::new(alloc);
    condition(alloc, tables, &mut binders, raw)
}

/// The metric, if there is one.
fn metric(
    alloc: Global,
    tables: &Tables,
    raw: &Option<RawMetric>,
) -> Result<Option<Metric>, Refusal>
    requires few { spec.AreFew (declared_of tables.now) }
    ensures { Gives result (spec.metric_of (declared_of tables.now) raw.now) }
{
    match raw {
        None => Ok(None),
        Some(raw) => {
            let binders = Binders::new(alloc);
            let value = expression(alloc, tables, &binders, &raw.value)?;
            Ok(Some(Metric {
                least: raw.least,
                value,
            }))
        }
    }
}

/// The task over the tables of names.
#[tactic(auto, unfolding(crate::specs::Tasks::task_for))]
fn task_over(
    alloc: Global,
    tables: &Tables,
    domain: &Domain,
    problem: &Problem,
) -> Result<TypedTask, Refusal>
    requires few { spec.AreFew (declared_of tables.now) }
    requires narrow { spec.AreNarrow (declared_of tables.now) }
    ensures { Gives result (spec.task_for (declared_of tables.now) domain.now problem.now) }
{
    let types = type_names(alloc, &tables.types, tables.parents.as_slice())?;
    let objects = objects(alloc, &tables.objects, tables.object_types.as_slice())?;
    let predicates = symbols(alloc, &tables.predicates, tables.predicate_types.as_slice())?;
    let functions = symbols(alloc, &tables.functions, tables.function_types.as_slice())?;
    let actions = actions(alloc, tables, domain.actions.as_slice())?;
    let atoms = facts(alloc, tables, problem.atoms.as_slice())?;
    let values = values(alloc, tables, problem.values.as_slice())?;
    let metric = metric(alloc, tables, &problem.metric)?;
    let goal = goal(alloc, tables, &problem.goal)?;
    Ok(TypedTask {
        types,
        objects,
        predicates,
        functions,
        actions,
        atoms,
        values,
        goal,
        metric,
    })
}

/// Whether a task may have so many types, objects, predicates, functions and actions.
fn are_few(tables: &Tables, domain: &Domain) -> bool
    ensures value { result ≡ spec.are_few (declared_of tables.now) domain.now }
    ensures few { OnTrue result (spec.AreFew (declared_of tables.now)) }
{
    tables.types.len() <= 10_001
        && tables.objects.len() <= 65_535
        && tables.predicates.len() <= 10_000
        && tables.functions.len() <= 10_000
        && domain.actions.len() <= 1_000
}

/// The task of a domain and a problem over their tables: refused where a name isn't declared or takes
/// another number of arguments, a number doesn't fit, or a limit is passed.
#[tactic(auto, unfolding(crate::specs::Tasks::task_of))]
pub(crate) fn build(
    alloc: Global,
    tables: &Tables,
    domain: &Domain,
    problem: &Problem,
) -> Result<TypedTask, Refusal>
    requires narrow { spec.AreFew (declared_of tables.now) → spec.AreNarrow (declared_of tables.now) }
    ensures { Gives result (spec.task_of (declared_of tables.now) domain.now problem.now) }
{
    if !are_few(tables, domain) {
        return Err(Refusal::Refused);
    }
    task_over(alloc, tables, domain, problem)
}

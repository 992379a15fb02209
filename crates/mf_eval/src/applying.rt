ghost use Rattle.mf_eval.specs.Fired.{changes_in};
ghost use Rattle.mf_eval.specs.Outcome.{Gives, changed_outcome, outcome_for, outcome_of};
ghost use Rattle.mf_meaning.specs.SortedStates.{IsSortedState};
ghost use Rattle.mf_model.specs.Application.{instances_of};
ghost use Rattle.mf_model.specs.ResolvedTask.{IsResolvedTask};
ghost use Rattle.mf_model.specs.VariableScopes.{action_scope_of};
ghost use Rattle.std.specs.Prelude.{◌+◌, ◌≤◌, Contains, IfOk, Some, length};

use crate::atoms::changed_atoms;
use crate::binding::places;
use crate::changes::{are_apart, are_defined};
use crate::condition::is_met;
use crate::deed::Deed;
use crate::fault::{ApplyFault, Why};
use crate::firing::fire;
use crate::scene::Scene;
use crate::values::changed_values;
use mf_model::{Action, Instance, List, PlainState, TypedTask};
use std::alloc::Global;

/// The state after an applicable instance, sorted like the old one. All its effects read the old state, and an atom that is both
/// deleted and added is true.
///
/// Else the first of these: `Wide` where the precondition is wide; `Condition` where it does not hold;
/// `Wide` where an effect condition, or a right side that fires, is wide; `Undefined` where a firing effect
/// reads an undefined value, or scales down by 0; `Clash` where the firing effects on one term are neither
/// increases and decreases alone nor exactly one; `Wide` where a partial result does not fit: these start
/// with the old value and take the effects in order.
pub fn apply(
    alloc: Global,
    task: &TypedTask,
    instance: &Instance,
    state: &PlainState,
) -> Result<PlainState, ApplyFault>
    requires resolved { IsResolvedTask task.now }
    requires sorted { IsSortedState state.now }
    requires step { Contains (instances_of task.now) instance.now }
    ensures outcome { Gives (outcome_of task.now state.now instance.now) result }
    ensures sorted { IfOk result (λ next. IsSortedState next) }
{
    let Some(action) = task.actions.get(usize::from(instance.action)) else {
        return Err(ApplyFault::NotApplicable {
            why: Why::Condition,
        });
    };
    apply_action(
        alloc,
        &Scene { task, state },
        action,
        instance.objects.as_slice(),
    )
}

pub(crate) fn apply_action(
    alloc: Global,
    scene: &Scene<'_>,
    action: &Action,
    objects: &[u16],
) -> Result<PlainState, ApplyFault>
    requires sorted { IsSortedState scene.now.state.now }
    requires objects { length scene.now.task.now.objects ≤ 65535 }
    requires variables { length objects.now + action_scope_of (Some action.now) ≤ 64 }
    ensures outcome { Gives (outcome_for scene.now.task.now scene.now.state.now objects.now (Some action.now)) result }
    ensures sorted { IfOk result (λ next. IsSortedState next) }
{
    let mut binding = places(alloc, objects);
    if !is_met(scene, &action.condition, &mut binding)? {
        return Err(ApplyFault::NotApplicable {
            why: Why::Condition,
        });
    }
    let mut deeds = Vec::new(alloc);
    fire(scene, &action.effect, &mut binding, &mut deeds)?;
    change(alloc, scene.state, deeds.as_slice())
}

// The state after the changes.
fn change(alloc: Global, state: &PlainState, deeds: &[Deed]) -> Result<PlainState, ApplyFault>
    requires { IsSortedState state.now }
    ensures outcome { Gives (changed_outcome state.now (changes_in deeds.now)) result }
    ensures sorted { IfOk result (λ next. IsSortedState next) }
{
    if !are_defined(state, deeds) {
        return Err(ApplyFault::NotApplicable {
            why: Why::Undefined,
        });
    }
    if !are_apart(deeds) {
        return Err(ApplyFault::NotApplicable { why: Why::Clash });
    }
    let values = changed_values(alloc, state.values.as_slice(), deeds)?;
    let atoms = changed_atoms(alloc, state.atoms.as_slice(), deeds)?;
    Ok(PlainState {
        atoms: List::from_vec(atoms),
        values: List::from_vec(values),
    })
}

ghost use Rattle.std.specs.Prelude.{◌≡◌, ◌<◌, ◌↔◌, IsTrue, All, Some, get_or, map, reverse, length, slice_get, IfOk};
ghost use Rattle.mf_search.specs.World.{AtGoal};
ghost use Rattle.mf_search.specs.Answers.{plan_to};
ghost use Rattle.mf_task.specs.Histories.{IsHistoryOf, world_of};
ghost use Rattle.mf_task.specs.Successors.{packed_of, space_of};
ghost use Rattle.mf_trace.specs.Traces.{IsGoalTaken, Traces};

use crate::fault::TraceFault;
use mf_model::{Instance, List};
use mf_task::{Entry, GroundAction, History, Maker, Naming, Task};
use std::alloc::{AllocError, Global};

/// The number of the goal that the last entry takes, if it takes one.
fn taken_goal<N: Naming>(history: &History) -> Option<u64>
    requires { IsHistoryOf N.case 64 history.now }
    ensures { IsGoalTaken (world_of N.case history.now) result }
{
    let Some(last) = history.entries.as_slice().last() else {
        return None;
    };
    let Entry::Take { state, .. } = last else {
        return None;
    };
    if is_zero_at(history.values.as_slice(), *state as usize) {
        Some(*state)
    } else {
        None
    }
}

fn is_zero_at(values: &[u64], at: usize) -> bool
    requires { at < length values.now }
    ensures { IsTrue result ↔ (get_or values.now at 0 ≡ 0) }
{
    values[at] == 0
}

/// The numbers of the instances that lead from the start to the goal of this number, the last one first.
fn numbers_back<N: Naming>(
    alloc: Global,
    history: &History,
    goal: u64,
) -> Result<List<u32>, AllocError>
    requires history { IsHistoryOf N.case 64 history.now }
    requires taken { (world_of N.case history.now).ending ≡ AtGoal goal }
    ensures { IfOk result (λ numbers. reverse numbers ≡ plan_to (space_of N.case) (world_of N.case history.now).opened goal) }
{
    let makers = history.makers.as_slice();
    let mut numbers = List::new(alloc);
    let mut state = goal as usize;
    while let Maker::Step {
        parent,
        instance,
        ..
    } = makers[state]
    {
        numbers.push(instance)?;
        state = parent as usize;
    }
    Ok(numbers)
}

/// The instances of the numbers, from the last number to the first.
fn steps_back(
    alloc: Global,
    actions: &[GroundAction],
    mut numbers: List<u32>,
) -> Result<List<Instance>, AllocError>
    requires { All (λ n. n < length actions.now) numbers }
    ensures { IfOk result (λ steps. map Some steps ≡ map (slice_get (map (λ action. action.instance) actions.now)) (reverse numbers)) }
{
    let mut steps = List::new(alloc);
    while let Some(number) = numbers.pop() {
        let instance = &actions[number as usize].instance;
        steps.push(instance.copy(alloc)?)?;
    }
    Ok(steps)
}

/// The plan of a history in which a goal was taken: the instances from the start to the goal, by what first opened each
/// state.
///
/// `NotFound` exactly where no goal was taken.
pub fn plan_of<N: Naming>(
    alloc: Global,
    task: &Task,
    history: &History,
) -> Result<List<Instance>, TraceFault>
    requires task { task.now ≡ packed_of N.case.task }
    requires history { IsHistoryOf N.case 64 history.now }
    ensures { Traces N.case history.now result }
{
    let Some(goal) = taken_goal::<N>(history) else {
        return Err(TraceFault::NotFound);
    };
    let numbers = numbers_back::<N>(alloc, history, goal)?;
    let steps = steps_back(alloc, task.actions.as_slice(), numbers)?;
    Ok(steps)
}

ghost use Rattle.std.specs.Prelude.{◌≡◌, ◌<◌, ℕ, All, List, Some, map, reverse, length, slice_get, IfOk};
ghost use Rattle.mf_model.specs.Objects.{HaveTopType};
ghost use Rattle.mf_plain.specs.SearchTask.{IsSearchTask};
ghost use Rattle.mf_model.specs.declared.task.TypedTask.{TypedTask};
ghost use Rattle.mf_search.specs.declared.status.Status.TheVariants.{Plan};
ghost use Rattle.mf_search.specs.Answers.{plan_to};
ghost use Rattle.mf_plain.specs.PlainSpace.{space_of};
ghost use Rattle.mf_plain.specs.Searches.{IsSearched, Traces, world_of};

use crate::listing::instances;
use crate::{Maker, Memory, Searched, Status, TraceFault};
use mf_model::{Instance, List, TypedTask};
use std::alloc::Global;

/// The numbers of the instances that lead from the start to the goal of this number, the last one first.
fn numbers_back(alloc: Global, searched: &Searched, goal: usize) -> Result<List<u32>, Memory>
    requires searched { (task : TypedTask) × (budget : ℕ) × IsSearched task budget searched.now }
    requires found { searched.now.status ≡ Plan goal }
    ensures { IfOk result (λ numbers. (task : TypedTask) (budget : ℕ) → IsSearched task budget searched.now → reverse numbers ≡ plan_to (space_of task) (world_of task searched.now.history).opened goal) }
{
    let makers = searched.history.makers.as_slice();
    let mut numbers = List::new(alloc);
    let mut state = goal;
    while let Maker::Step {
        parent,
        instance,
        ..
    } = makers[state]
    {
        numbers.push(instance)?;
        state = parent as usize;
    }
    Ok(numbers)
}

/// The instances of the numbers, from the last number to the first.
fn steps_back(
    alloc: Global,
    instances: &[Instance],
    mut numbers: List<u32>,
) -> Result<List<Instance>, Memory>
    requires { All (λ n. n < length instances.now) numbers }
    ensures { IfOk result (λ steps. map Some steps ≡ map (slice_get instances.now) (reverse numbers)) }
{
    let mut steps = List::new(alloc);
    while let Some(number) = numbers.pop() {
        let instance = &instances[number as usize];
        steps.push(instance.copy(alloc)?)?;
    }
    Ok(steps)
}

/// The plan of a search that took a goal: the instances from the start to the goal, by what first opened
/// each state.
///
/// `NotFound` where no goal was taken.
pub fn plan_of(
    alloc: Global,
    task: &TypedTask,
    searched: &Searched,
) -> Result<List<Instance>, TraceFault>
    requires searchable { IsSearchTask task.now }
    requires objects { HaveTopType task.now }
    requires searched { (budget : ℕ) × IsSearched task.now budget searched.now }
    ensures { Traces task.now searched.now result }
{
    let Status::Plan { state } = searched.status else {
        return Err(TraceFault::NotFound);
    };
    let numbers = numbers_back(alloc, searched, state as usize)?;
    let instances = instances(alloc, task)?;
    let steps = steps_back(alloc, instances.as_slice(), numbers)?;
    Ok(steps)
}

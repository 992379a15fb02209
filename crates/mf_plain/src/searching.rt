ghost use Rattle.std.specs.Prelude.{◌≡◌, ◌≤◌, ◌<◌, ◌^◌, ℕ, [], ◌∷◌, ◌++◌, List, length, IfOk, OnOk};
ghost use Rattle.mf_model.specs.Application.{instances_of};
ghost use Rattle.mf_model.specs.Objects.{HaveTopType};
ghost use Rattle.mf_plain.specs.SearchTask.{IsSearchTask};
ghost use Rattle.mf_model.specs.declared.state.PlainState.{PlainState};
ghost use Rattle.mf_model.specs.declared.task.TypedTask.{TypedTask};
ghost use Rattle.mf_search.specs.declared.entry.Entry.TheVariants.{Done};
ghost use Rattle.mf_search.specs.World.{Opened, at, open_all};
ghost use Rattle.mf_plain.specs.Conjunctions.{needs_of};
ghost use Rattle.mf_plain.specs.PlainSpace.{space_of, children_in};
ghost use Rattle.mf_plain.specs.Searches.{IsSearched};
ghost use Rattle.mf_plain.specs.UnderWay.{Tracks, TakenBelow, IsUnderWay, IsLeast, IsNext};

use crate::least::least;
use crate::listing::instances;
use crate::progress::{Progress, open_successors, take};
use crate::start::{goal_atoms, start};
use crate::successors::successors;
use crate::{Entry, Memory, Searched, Status};
use mf_model::{Atom, Instance, TypedTask};
use std::alloc::Global;

/// The number of the open state of least key.
fn least_open(progress: &Progress) -> Option<usize>
    requires { length progress.now.taken.items ≡ length progress.now.history.values }
    ensures { IsLeast progress.now.history.values progress.now.taken.items (length progress.now.history.values) result }
{
    least(
        progress.history.values.as_slice(),
        progress.taken.as_slice(),
    )
}

/// Opens the successors of the state of this number, which is done then.
fn expand(
    alloc: Global,
    task: &TypedTask,
    instances: &[Instance],
    goal: &[Atom],
    progress: &mut Progress,
    state: usize,
) -> Result<(), Memory>
    requires searchable { IsSearchTask task.now }
    requires listed { instances.now ≡ instances_of task.now }
    requires numbered { length instances.now < 2 ^ 32 }
    requires goal { goal.now ≡ needs_of task.now.goal [] }
    requires within { state < length progress.old.history.rows }
    ensures entries { OnOk result (progress.new.history.entries ≡ progress.old.history.entries ++ Done 1 state ∷ []) }
    ensures opened { OnOk result ((os : List (Opened PlainState)) (taken : List ℕ) → TakenBelow taken os → Tracks os taken progress.old → Tracks (open_all (space_of task.now) state (children_in task.now (at (space_of task.now) os state).state) os) taken progress.new) }
{
    let row = &progress.history.rows.as_slice()[state];
    let children = successors(alloc, task, instances, row)?;
    open_successors(progress, task, goal, state, children)?;
    progress.history.entries.push(Entry::Done {
        worker: 1,
        state: state as u64,
    })?;
    Ok(())
}

/// Takes the open state of least key and expands it. The status, where that ends the search.
fn advance(
    alloc: Global,
    task: &TypedTask,
    instances: &[Instance],
    goal: &[Atom],
    progress: &mut Progress,
) -> Result<Option<Status>, Memory>
    requires searchable { IsSearchTask task.now }
    requires listed { instances.now ≡ instances_of task.now }
    requires numbered { length instances.now < 2 ^ 32 }
    requires goal { goal.now ≡ needs_of task.now.goal [] }
    requires flags { length progress.old.taken.items ≡ length progress.old.history.values }
    requires rows { length progress.old.history.rows ≡ length progress.old.history.values }
    ensures { IfOk result (λ status. (budget takes : ℕ) → takes < budget → IsUnderWay task.now budget takes progress.old → IsNext task.now budget takes progress.new status) }
{
    let Some(state) = least_open(progress) else {
        return Ok(Some(Status::NoPlan));
    };
    let is_goal = progress.history.values.as_slice()[state] == 0;
    take(progress, state)?;
    if is_goal {
        return Ok(Some(Status::Plan {
            state: state as u64,
        }));
    }
    expand(alloc, task, instances, goal, progress, state)?;
    Ok(None)
}

/// The status of a search that has taken as many states as it may.
fn last_status(progress: &Progress) -> Status
    requires flags { length progress.now.taken.items ≡ length progress.now.history.values }
    ensures { (task : TypedTask) (budget : ℕ) → IsUnderWay task budget budget progress.now → IsSearched task budget (record { history = progress.now.history; status = result }) }
{
    match least_open(progress) {
        None => Status::NoPlan,
        Some(_) => Status::Budget,
    }
}

/// Searches for a plan with one worker, taking at most `budget` states.
///
/// The instances are numbered by `u32`: a task with more of them is answered as want of memory.
pub fn search(alloc: Global, task: &TypedTask, budget: u64) -> Result<Searched, Memory>
    requires searchable { IsSearchTask task.now }
    requires objects { HaveTopType task.now }
    requires some { 1 ≤ budget }
    ensures { IfOk result (IsSearched task.now budget) }
{
    let instances = instances(alloc, task)?;
    if instances.len() > u32::MAX as usize {
        return Err(Memory);
    }
    let goal = goal_atoms(alloc, task)?;
    let mut progress = start(alloc, task, goal.as_slice())?;
    for _take in 0..budget {
        if let Some(status) = advance(
            alloc,
            task,
            instances.as_slice(),
            goal.as_slice(),
            &mut progress,
        )? {
            let Progress { history, taken: _ } = progress;
            return Ok(Searched { history, status });
        }
    }
    let status = last_status(&progress);
    let Progress { history, taken: _ } = progress;
    Ok(Searched { history, status })
}

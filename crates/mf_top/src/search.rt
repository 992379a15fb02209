ghost use Rattle.std.specs.Prelude.{◌≡◌, ℕ, ◌≤◌, IfOk};
ghost use Rattle.mf_model.specs.ResolvedTask.{IsResolvedTask};
ghost use Rattle.mf_plain.specs.SearchTask.{IsSearchTask};
ghost use Rattle.mf_plain.specs.Searches.{IsSearched};
ghost use Rattle.mf_search.specs.declared.status.Status.TheVariants as status;
ghost use Rattle.mf_top.specs.Search.{FindsPlan, IsAnswer, Answers, Searches};

use crate::decision::Decision;
use crate::laws::plain_tasks_are_searched;
use crate::task::refuse_task;
use crate::texts::{budget_text, plan_text};
use mf_io::Memory;
use mf_model::{Text, TypedTask};
use mf_plain::{Searched, Status, TraceFault, is_searchable, plan_of, search};
use std::alloc::Global;

// What a search that returned answers: a status, and a text on out.
#[derive(Debug, Drop)]
struct Answer {
    status: u8,
    text: Text,
}

// The plan of a search that took a goal, as a text.
fn text_of_plan(alloc: Global, task: &TypedTask, searched: &Searched) -> Result<Text, Memory>
    requires resolved { IsResolvedTask task.now }
    requires searchable { IsSearchTask task.now }
    requires searched { (budget : ℕ) × IsSearched task.now budget searched.now }
    requires goal { (goal : ℕ) × (searched.now.status ≡ status.Plan goal) }
    ensures { IfOk result (FindsPlan task.now searched.now) }
{
    match plan_of(alloc, task, searched) {
        Ok(steps) => plan_text(alloc, task, steps.as_slice()),
        Err(TraceFault::NotFound) => unreachable!(),
        Err(TraceFault::Memory) => Err(Memory),
    }
}

fn answer_of(
    alloc: Global,
    task: &TypedTask,
    budget: u64,
    searched: &Searched,
) -> Result<Answer, Memory>
    requires resolved { IsResolvedTask task.now }
    requires searchable { IsSearchTask task.now }
    requires searched { IsSearched task.now budget searched.now }
    ensures { IfOk result (IsAnswer task.now budget searched.now) }
{
    match searched.status {
        Status::Plan { .. } => match text_of_plan(alloc, task, searched) {
            Ok(text) => Ok(Answer { status: 0, text }),
            Err(memory) => Err(memory),
        },
        Status::NoPlan => match Text::from_slice(alloc, b"no plan\n") {
            Ok(text) => Ok(Answer { status: 1, text }),
            Err(_) => Err(Memory),
        },
        Status::Budget => match budget_text(alloc, budget) {
            Ok(text) => Ok(Answer { status: 6, text }),
            Err(_) => Err(Memory),
        },
        Status::Running | Status::Halted | Status::Width { .. } => unreachable!(),
    }
}

// What a search that returned decides.
fn decide_answer(alloc: Global, task: &TypedTask, budget: u64, searched: Searched) -> Decision
    requires resolved { IsResolvedTask task.now }
    requires searchable { IsSearchTask task.now }
    requires searched { IsSearched task.now budget searched }
    ensures { Answers task.now budget result }
{
    let answer = answer_of(alloc, task, budget, &searched);
    match answer {
        Ok(Answer { status, text }) => Decision::answers(alloc, status, text, searched.history),
        Err(_) => Decision::answers(alloc, 8, Text::new(alloc), searched.history),
    }
}

/// Searches for a plan of the task with one worker, if the task is plain.
pub(crate) fn decide_search(alloc: Global, task: &TypedTask, budget: u64) -> Decision
    requires resolved { IsResolvedTask task.now }
    requires some { 1 ≤ budget }
    ensures { Searches task.now budget result }
{
    plain_tasks_are_searched();
    if !is_searchable(task) {
        return refuse_task(alloc, b"task: not built\n");
    }
    match search(alloc, task, budget) {
        Ok(searched) => decide_answer(alloc, task, budget, searched),
        Err(_) => Decision::out_of_memory(alloc),
    }
}

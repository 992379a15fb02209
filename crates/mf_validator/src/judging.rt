ghost use Rattle.mf_meaning.specs.SortedStates.{IsSortedState};
ghost use Rattle.mf_model.specs.ResolvedTask.{IsResolvedTask};
ghost use Rattle.mf_eval.specs.declared.fault.Why.{Why};
ghost use Rattle.mf_model.specs.Application.{instances_of};
ghost use Rattle.mf_model.specs.States.{start_of};
ghost use Rattle.mf_validator.specs.Validity.{Fails, IsValid, IsWideAt, MissesGoal, StopsAt};
ghost use Rattle.mf_validator.specs.declared.verdict.Reported.{Reported};
ghost use Rattle.mf_validator.specs.Verdicts.{Gives, end_verdict, refused_verdict, reported_value, valid_verdict, verdict_of};
ghost use Rattle.std.specs.List.{All};
ghost use Rattle.std.specs.Prelude.{◌≡◌, ◌+◌, ◌<◌, ◌^◌, ℕ, Contains, Some, Ok, Err, length};

use crate::fault::JudgeFault;
use crate::verdict::{Reported, Verdict};
use mf_eval::{ApplyFault, Truth, apply, holds, start_state, value};
use mf_fraction::Frac;
use mf_model::{Instance, PlainState, TypedTask};
use std::alloc::Global;

/// Whether a plan is valid: each step is applicable in turn from the start, and the goal holds at the end.
///
/// `Wide` comes with the number of the first step that is not applied, where that is since a value does not
/// fit. It comes with the number of steps plus 1 where all are applied and a value of the goal does not fit,
/// or where the goal holds and a value of the metric does not fit.
pub fn judge(alloc: Global, task: &TypedTask, plan: &[Instance]) -> Result<Verdict, JudgeFault>
    requires few { length plan.now + 1 < 2 ^ 32 }
    requires resolved { IsResolvedTask task.now }
    requires steps { All (Contains (instances_of task.now)) plan.now }
    ensures answer { Gives (verdict_of task.now plan.now) result }
    ensures valid { (metric : Reported) → result ≡ Ok (Verdict.Valid metric) → IsValid task.now plan.now metric }
    ensures step_fails { (step : ℕ) (why : Why) → result ≡ Ok (Verdict.StepFails step why) → StopsAt task.now (Fails task.now why) (start_of task.now) plan.now step }
    ensures goal_fails { result ≡ Ok Verdict.GoalFails → MissesGoal task.now plan.now }
    ensures wide { (step : ℕ) → result ≡ Err (JudgeFault.Wide step) → IsWideAt task.now plan.now step }
{
    walk(alloc, task, plan)
}

// The steps one after another, and then the end.
fn walk(alloc: Global, task: &TypedTask, plan: &[Instance]) -> Result<Verdict, JudgeFault>
    requires few { length plan.now + 1 < 2 ^ 32 }
    requires resolved { IsResolvedTask task.now }
    requires steps { All (Contains (instances_of task.now)) plan.now }
    ensures { Gives (verdict_of task.now plan.now) result }
{
    let mut state = start_state(alloc, task)?;
    for (done, step) in plan.iter().enumerate() {
        match apply(alloc, task, step, &state) {
            Ok(next) => state = next,
            Err(fault) => return refused(fault, done as u32 + 1),
        }
    }
    conclude(task, &state, plan.len() as u32)
}

// The verdict where the step with this number was not applied.
fn refused(fault: ApplyFault, step: u32) -> Result<Verdict, JudgeFault>
    ensures { result ≡ refused_verdict step fault }
{
    match fault {
        ApplyFault::Wide => Err(JudgeFault::Wide { step }),
        ApplyFault::NotApplicable { why } => Ok(Verdict::StepFails { step, why }),
        ApplyFault::Memory => Err(JudgeFault::Memory),
    }
}

// The verdict after all of so many steps.
fn conclude(task: &TypedTask, state: &PlainState, steps: u32) -> Result<Verdict, JudgeFault>
    requires few { steps + 1 < 2 ^ 32 }
    requires resolved { IsResolvedTask task.now }
    requires sorted { IsSortedState state.now }
    ensures { result ≡ end_verdict task.now steps state.now }
{
    let Ok(truth) = holds(task, &task.goal, &[], state) else {
        return Err(JudgeFault::Wide { step: steps + 1 });
    };
    match truth {
        Truth::Yes => report(task, state, steps),
        Truth::No | Truth::Neither => Ok(Verdict::GoalFails),
    }
}

// The verdict of a valid plan of so many steps.
fn report(task: &TypedTask, state: &PlainState, steps: u32) -> Result<Verdict, JudgeFault>
    requires few { steps + 1 < 2 ^ 32 }
    requires sorted { IsSortedState state.now }
    ensures { result ≡ valid_verdict task.now.metric steps state.now }
{
    let Some(metric) = &task.metric else {
        return Ok(Verdict::Valid {
            metric: Reported::Absent,
        });
    };
    match value(task, &metric.value, &[], state, u64::from(steps)) {
        Ok(value) => Ok(Verdict::Valid {
            metric: shown(value),
        }),
        Err(_) => Err(JudgeFault::Wide { step: steps + 1 }),
    }
}

fn shown(value: Option<Frac>) -> Reported
    ensures { result ≡ reported_value value }
{
    match value {
        Some(value) => Reported::Value(value),
        None => Reported::Undefined,
    }
}

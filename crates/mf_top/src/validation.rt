ghost use Rattle.std.specs.Prelude.{◌≡◌, ◌≤◌, All, Contains, Ok, Err, length};
ghost use Rattle.mf_model.specs.Application.{instances_of};
ghost use Rattle.mf_model.specs.ResolvedTask.{IsResolvedTask};
ghost use Rattle.mf_validator.specs.declared.fault.JudgeFault.TheVariants as judge;
ghost use Rattle.mf_top.specs.Call.{call_of, written_of};
ghost use Rattle.mf_top.specs.Commands.{Comes, Serves};
ghost use Rattle.mf_top.specs.Decision.{refuses, IsUnlessMemory};
ghost use Rattle.mf_top.specs.Loads.{greatest_length};
ghost use Rattle.mf_top.specs.Texts.{place_text};
ghost use Rattle.mf_top.specs.Validate.{ReadsPlan, judgement_status, judgement_of, Judges, JudgesSource, DecidesJudgement};
ghost use Rattle.mf_top.specs.Words.{IsRequest, AsksJudgement};

use crate::Request;
use crate::decision::Decision;
use crate::deliver::{Ended, deliver};
use crate::load::{Three, load_three};
use crate::task::read_task;
use crate::texts::place_text;
use crate::verdicts::{verdict_text, wide_text};
use mf_io::{Folder, Sink};
use mf_model::{Instance, List, Text, TypedTask};
use mf_validator::{JudgeFault, PlanFault, Verdict, judge, read_plan};
use std::alloc::Global;

// This line of the plan file is at fault.
fn refuse_line(alloc: Global, name: &Text, line: u32, kind: &[u8]) -> Decision
    ensures { IsUnlessMemory (refuses (place_text name.now line kind.now)) result }
{
    match place_text(alloc, name.as_slice(), line, kind) {
        Ok(text) => Decision::refuses(alloc, text),
        Err(_) => Decision::out_of_memory(alloc),
    }
}

// Reads the plan of a plan file.
fn plan_in(
    alloc: Global,
    name: &Text,
    source: &[u8],
    task: &TypedTask,
) -> Result<List<Instance>, Decision>
    requires size { length source.now ≤ greatest_length }
    requires resolved { IsResolvedTask task.now }
    ensures { ReadsPlan name.now source.now task.now result }
{
    match read_plan(alloc, source, task) {
        Ok(plan) => Ok(plan),
        Err(PlanFault::BadLine { line }) => Err(refuse_line(alloc, name, line, b"bad line")),
        Err(PlanFault::UnknownAction { line }) => {
            Err(refuse_line(alloc, name, line, b"unknown action"))
        }
        Err(PlanFault::WrongArguments { line }) => {
            Err(refuse_line(alloc, name, line, b"wrong arguments"))
        }
        Err(PlanFault::Memory) => Err(Decision::out_of_memory(alloc)),
    }
}

fn verdict_status(verdict: &Verdict) -> u8
    ensures { result ≡ judgement_status (Ok verdict.now) }
{
    match verdict {
        Verdict::Valid { .. } => 0,
        Verdict::StepFails { .. } | Verdict::GoalFails => 1,
    }
}

fn say_verdict(alloc: Global, verdict: &Verdict) -> Decision
    ensures { IsUnlessMemory (judgement_of (Ok verdict.now)) result }
{
    match verdict_text(alloc, verdict) {
        Ok(text) => Decision::says(alloc, verdict_status(verdict), text),
        Err(_) => Decision::out_of_memory(alloc),
    }
}

fn say_width(alloc: Global, step: u32) -> Decision
    ensures { IsUnlessMemory (judgement_of (Err (judge.Wide step))) result }
{
    match wide_text(alloc, step) {
        Ok(text) => Decision::says(alloc, 7, text),
        Err(_) => Decision::out_of_memory(alloc),
    }
}

fn judge_plan(alloc: Global, task: &TypedTask, plan: &[Instance]) -> Decision
    requires few { length plan.now ≤ greatest_length }
    requires resolved { IsResolvedTask task.now }
    requires steps { All (Contains (instances_of task.now)) plan.now }
    ensures { Judges task.now plan.now result }
{
    match judge(alloc, task, plan) {
        Ok(verdict) => say_verdict(alloc, &verdict),
        Err(JudgeFault::Wide { step }) => say_width(alloc, step),
        Err(JudgeFault::Memory) => Decision::out_of_memory(alloc),
    }
}

// Reads the plan of the task, and judges it.
fn judge_source(alloc: Global, name: &Text, source: &[u8], task: &TypedTask) -> Decision
    requires size { length source.now ≤ greatest_length }
    requires resolved { IsResolvedTask task.now }
    ensures { JudgesSource name.now source.now task.now result }
{
    match plan_in(alloc, name, source, task) {
        Ok(plan) => judge_plan(alloc, task, plan.as_slice()),
        Err(decision) => decision,
    }
}

// Reads the task of two files and the plan of the third, and judges it.
fn judge_files(alloc: Global, domain: &Text, problem: &Text, plan: &Text, files: &Three) -> Decision
    requires domain_size { length files.now.domain ≤ greatest_length }
    requires problem_size { length files.now.problem ≤ greatest_length }
    requires plan_size { length files.now.third ≤ greatest_length }
    ensures { DecidesJudgement domain.now problem.now plan.now files.now.domain files.now.problem files.now.third result }
{
    match read_task(
        alloc,
        domain,
        problem,
        files.domain.as_slice(),
        files.problem.as_slice(),
    ) {
        Ok(task) => judge_source(alloc, plan, files.third.as_slice(), &task),
        Err(decision) => decision,
    }
}

// Loads the three files, and judges the plan by the task.
fn decide_judgement<F: Folder>(alloc: Global, request: &Request, files: &mut F) -> Decision
    requires request { IsRequest request.now }
    requires judgement { AsksJudgement request.now }
    ensures { Comes (F.held files.old) request.now (F.log files.old) (F.log files.new) result }
{
    let Request::Validate {
        domain,
        problem,
        plan,
    } = request
    else {
        unreachable!()
    };
    match load_three(alloc, domain, problem, plan, files) {
        Ok(loaded) => judge_files(alloc, domain, problem, plan, &loaded),
        Err(decision) => decision,
    }
}

/// Judges the plan of a plan file.
pub fn validate<F: Folder, O: Sink, E: Sink>(
    alloc: Global,
    request: &Request,
    files: &mut F,
    out: &mut O,
    err: &mut E,
) -> Ended
    requires request { IsRequest request.now }
    requires judgement { AsksJudgement request.now }
    ensures { Serves request.now (call_of F.held F.log files.old files.new
        (written_of O.written O.faults out.old out.new) (written_of E.written E.faults err.old err.new) result.status result.history) }
{
    let decision = decide_judgement(alloc, request, files);
    deliver(alloc, decision, out, err)
}

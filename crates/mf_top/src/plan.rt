ghost use Rattle.std.specs.Prelude.{◌≤◌, length};
ghost use Rattle.std.specs.Str.{IsUtf8};
ghost use Rattle.mf_top.specs.Call.{call_of, written_of};
ghost use Rattle.mf_top.specs.Commands.{Comes, Serves};
ghost use Rattle.mf_top.specs.Loads.{greatest_length, LoadsThen};
ghost use Rattle.mf_top.specs.Plan.{DecidesPlan};
ghost use Rattle.mf_top.specs.Words.{IsRequest, AsksPlan};

use crate::Request;
use crate::decision::Decision;
use crate::deliver::{Ended, deliver};
use crate::load::{Two, load_two};
use crate::search::decide_search;
use crate::task::read_task;
use mf_io::{Folder, Sink};
use mf_model::Text;
use std::alloc::Global;

// Reads the task of the two files, and searches for a plan.
fn decide_files(alloc: Global, domain: &Text, problem: &Text, budget: u64, files: &Two) -> Decision
    requires domain_size { length files.now.domain ≤ greatest_length }
    requires problem_size { length files.now.problem ≤ greatest_length }
    requires some { 1 ≤ budget }
    ensures { DecidesPlan domain.now problem.now budget files.now.domain files.now.problem result }
{
    match read_task(
        alloc,
        domain,
        problem,
        files.domain.as_slice(),
        files.problem.as_slice(),
    ) {
        Ok(task) => decide_search(alloc, &task, budget),
        Err(decision) => decision,
    }
}

// Loads the two files, reads their task and searches for a plan.
fn decide_plan<F: Folder>(alloc: Global, request: &Request, files: &mut F) -> Decision
    requires request { IsRequest request.now }
    requires plan { AsksPlan request.now }
    ensures { Comes (F.held files.old) request.now (F.log files.old) (F.log files.new) result }
{
    let Request::Plan {
        domain,
        problem,
        budget,
    } = request
    else {
        unreachable!()
    };
    match load_two(alloc, domain, problem, files) {
        Ok(loaded) => decide_files(alloc, domain, problem, *budget, &loaded),
        Err(decision) => decision,
    }
}

/// Searches for a plan with one worker.
pub fn plan_one<F: Folder, O: Sink, E: Sink>(
    alloc: Global,
    request: &Request,
    files: &mut F,
    out: &mut O,
    err: &mut E,
) -> Ended
    requires request { IsRequest request.now }
    requires plan { AsksPlan request.now }
    ensures { Serves request.now (call_of F.held F.log files.old files.new
        (written_of O.written O.faults out.old out.new) (written_of E.written E.faults err.old err.new) result.status result.history) }
{
    let decision = decide_plan(alloc, request, files);
    deliver(alloc, decision, out, err)
}

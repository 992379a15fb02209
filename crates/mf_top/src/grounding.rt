ghost use Rattle.std.specs.Prelude.{◌≤◌, length};
ghost use Rattle.mf_ground.specs.Outcome.{AreInstances};
ghost use Rattle.mf_model.specs.ResolvedTask.{IsResolvedTask};
ghost use Rattle.mf_top.specs.Call.{call_of, written_of};
ghost use Rattle.mf_top.specs.Commands.{Comes, Serves};
ghost use Rattle.mf_top.specs.Decision.{no_history, answers, IsUnlessMemory};
ghost use Rattle.mf_top.specs.Ground.{ground_text, ListsInstances, DecidesGround};
ghost use Rattle.mf_top.specs.Loads.{greatest_length};
ghost use Rattle.mf_top.specs.Words.{IsRequest, AsksInstances};

use crate::Request;
use crate::decision::Decision;
use crate::deliver::{Ended, deliver};
use crate::load::{Two, load_two};
use crate::task::{read_task, refuse_task};
use crate::texts::instances_text;
use mf_ground::{GroundFault, Instances, instances};
use mf_io::{Folder, Sink};
use mf_model::{Text, TypedTask};
use std::alloc::Global;

fn say_instances(alloc: Global, task: &TypedTask, found: &Instances) -> Decision
    requires { AreInstances task.now found.now }
    ensures { IsUnlessMemory (answers 0 (ground_text task.now) no_history) result }
{
    match instances_text(alloc, task, found.list.as_slice(), found.nodes) {
        Ok(text) => Decision::says(alloc, 0, text),
        Err(_) => Decision::out_of_memory(alloc),
    }
}

// Lists the live instances of the task, or says which limit it passes.
fn list_instances(alloc: Global, task: &TypedTask) -> Decision
    requires { IsResolvedTask task.now }
    ensures { ListsInstances task.now result }
{
    match instances(alloc, task) {
        Ok(found) => say_instances(alloc, task, &found),
        Err(GroundFault::TooManyPrefixes) => refuse_task(alloc, b"task: too many prefixes\n"),
        Err(GroundFault::TooManyInstances) => refuse_task(alloc, b"task: too many instances\n"),
        Err(GroundFault::TooManyNodes) => refuse_task(alloc, b"task: too many nodes\n"),
        Err(GroundFault::Memory) => Decision::out_of_memory(alloc),
    }
}

// Reads the task of the two files, and lists its live instances.
fn ground_files(alloc: Global, domain: &Text, problem: &Text, files: &Two) -> Decision
    requires domain_size { length files.now.domain ≤ greatest_length }
    requires problem_size { length files.now.problem ≤ greatest_length }
    ensures { DecidesGround domain.now problem.now files.now.domain files.now.problem result }
{
    match read_task(
        alloc,
        domain,
        problem,
        files.domain.as_slice(),
        files.problem.as_slice(),
    ) {
        Ok(task) => list_instances(alloc, &task),
        Err(decision) => decision,
    }
}

// Loads the two files, reads their task and lists its live instances.
fn decide_ground<F: Folder>(alloc: Global, request: &Request, files: &mut F) -> Decision
    requires request { IsRequest request.now }
    requires instances { AsksInstances request.now }
    ensures { Comes (F.held files.old) request.now (F.log files.old) (F.log files.new) result }
{
    let Request::Ground { domain, problem } = request else {
        unreachable!()
    };
    match load_two(alloc, domain, problem, files) {
        Ok(loaded) => ground_files(alloc, domain, problem, &loaded),
        Err(decision) => decision,
    }
}

/// Lists the live instances of a task, with their number and that of the nodes of its conditions and effects.
pub fn ground<F: Folder, O: Sink, E: Sink>(
    alloc: Global,
    request: &Request,
    files: &mut F,
    out: &mut O,
    err: &mut E,
) -> Ended
    requires request { IsRequest request.now }
    requires instances { AsksInstances request.now }
    ensures { Serves request.now (call_of F.held F.log files.old files.new
        (written_of O.written O.faults out.old out.new) (written_of E.written E.faults err.old err.new) result.status result.history) }
{
    let decision = decide_ground(alloc, request, files);
    deliver(alloc, decision, out, err)
}

ghost use Rattle.std.specs.Prelude.{map, string_bytes};
ghost use Rattle.mf_top.specs.Call.{call_of, written_of};
ghost use Rattle.mf_top.specs.Commands.{Serves, Runs};
ghost use Rattle.mf_top.specs.Words.{request_of, IsRequest};

use crate::Request;
use crate::deliver::{Ended, deliver};
use crate::grounding::ground;
use crate::plan::plan_one;
use crate::validation::validate;
use crate::words::read_words;
use mf_io::{Folder, Sink};
use std::alloc::Global;

// Calls the command of the request.
fn serve<F: Folder, O: Sink, E: Sink>(
    alloc: Global,
    request: &Request,
    files: &mut F,
    out: &mut O,
    err: &mut E,
) -> Ended
    requires { IsRequest request.now }
    ensures { Serves request.now (call_of F.held F.log files.old files.new
        (written_of O.written O.faults out.old out.new) (written_of E.written E.faults err.old err.new) result.status result.history) }
{
    match request {
        Request::Plan { .. } => plan_one(alloc, request, files, out, err),
        Request::Validate { .. } => validate(alloc, request, files, out, err),
        Request::Ground { .. } => ground(alloc, request, files, out, err),
    }
}

/// Runs the command that the words ask for; the program's own name is not among them.
pub fn run<F: Folder, O: Sink, E: Sink>(
    alloc: Global,
    words: &[String],
    files: &mut F,
    out: &mut O,
    err: &mut E,
) -> Ended
    ensures { Runs (request_of (map string_bytes words.now)) (call_of F.held F.log files.old files.new
        (written_of O.written O.faults out.old out.new) (written_of E.written E.faults err.old err.new) result.status result.history) }
{
    match read_words(alloc, words) {
        Ok(request) => serve(alloc, &request, files, out, err),
        Err(decision) => deliver(alloc, decision, out, err),
    }
}

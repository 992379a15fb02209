ghost use Rattle.std.specs.Prelude.{◌≡◌, ◌≤◌, Err, OnOk};
ghost use Rattle.mf_io.specs.declared.sink.PutFault.{PutFault};
ghost use Rattle.mf_top.specs.Call.{written_of, SomeSinkFails, CountsStay, WritesBoth, final_status, Delivers};

use crate::decision::Decision;
use mf_io::{PutFault, Sink, put_all};
use mf_plain::History;
use std::alloc::Global;

/// How a call ended: its exit status, and the history of its search, which is empty where no search returned.
#[derive(Debug, Drop)]
pub struct Ended {
    pub status: u8,
    pub history: History,
}

// Writes both texts, out first: all of them, or a front part where a put failed or memory ran out.
fn write_texts<O: Sink, E: Sink>(
    alloc: Global,
    decision: &Decision,
    out: &mut O,
    err: &mut E,
) -> Result<(), PutFault>
    ensures answer { WritesBoth decision.now.out decision.now.err (written_of O.written O.faults out.old out.new) (written_of E.written E.faults err.old err.new) result }
    ensures fault { result ≡ Err PutFault.Failed → SomeSinkFails (written_of O.written O.faults out.old out.new) (written_of E.written E.faults err.old err.new) }
    ensures unfailed { OnOk result (CountsStay (written_of O.written O.faults out.old out.new) (written_of E.written E.faults err.old err.new)) }
    ensures out_counted { O.faults out.old ≤ O.faults out.new }
    ensures err_counted { E.faults err.old ≤ E.faults err.new }
{
    put_all(alloc, out, decision.out.as_slice())?;
    put_all(alloc, err, decision.err.as_slice())
}

// The status of a call that decided on one and then wrote its texts.
fn final_status(decided: u8, delivered: Result<(), PutFault>) -> u8
    ensures { result ≡ final_status decided delivered }
{
    match delivered {
        Ok(()) => decided,
        Err(PutFault::Failed) => 5,
        Err(PutFault::Memory) => 8,
    }
}

/// Writes what was decided, and ends the call.
pub(crate) fn deliver<O: Sink, E: Sink>(
    alloc: Global,
    decision: Decision,
    out: &mut O,
    err: &mut E,
) -> Ended
    ensures { Delivers decision (written_of O.written O.faults out.old out.new) (written_of E.written E.faults err.old err.new) result.status result.history }
{
    let delivered = write_texts(alloc, &decision, out, err);
    Ended {
        status: final_status(decision.status, delivered),
        history: decision.history,
    }
}

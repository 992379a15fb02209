ghost use Rattle.std.specs.Prelude.{◌≡◌, ℕ, ◌≤◌, ◌<◌, List, [], Option, length, Err, OnOk};
ghost use Rattle.mf_io.specs.Sink.{Puts, PutsAll, Rose};

use super::Memory;
use std::alloc::Global;

/// Why a put took nothing.
#[derive(Clone, Copy, Debug, PartialEq, Eq)]
pub enum PutFault {
    /// The bytes could not be written.
    Failed,

    /// No memory was left.
    Memory,
}

impl From<Memory> for PutFault {
    ghost use Rattle.std.specs.Prelude.{◌≡◌};
    ghost use Rattle.mf_io.specs.declared.sink.PutFault.{PutFault};

    ghost from_gives = { λ _ fault. fault ≡ PutFault.Memory };

    fn from(_error: Memory) -> PutFault {
        PutFault::Memory
    }
}

/// A place that bytes are put to, piece by piece.
pub trait Sink {
    /// The bytes that were put so far, where it tells them.
    ghost written: { Self → Option (List ℕ) };

    /// The count of write faults.
    ghost faults: { Self → ℕ };

    /// Puts a front part of `piece` behind what is written, and answers how many bytes it took. The
    /// count of faults stays then.
    fn put(&mut self, alloc: Global, piece: &[u8]) -> Result<usize, PutFault>
        requires { 0 < length piece.now }
        ensures answer { Puts piece.now (written self.old) (written self.new) (faults self.old) (faults self.new) result }
        ensures counted { faults self.old ≤ faults self.new }
        ensures memory { result ≡ Err PutFault.Memory → self.new ≡ self.old };
}

/// Puts all of `bytes`, in as many pieces as the sink wants.
///
/// On an error a front part of the bytes was put. A put that fails is not tried again: on success the
/// count of faults stays.
#[tactic(auto, using(crate::proofs::SinkLemmas::putting))]
pub fn put_all<S: Sink>(alloc: Global, sink: &mut S, bytes: &[u8]) -> Result<(), PutFault>
    ensures answer { PutsAll bytes.now (S.written sink.old) (S.written sink.new) result }
    ensures fault { result ≡ Err PutFault.Failed → Rose (S.faults sink.old) (S.faults sink.new) }
    ensures counted { S.faults sink.old ≤ S.faults sink.new }
    ensures unfailed { OnOk result (S.faults sink.new ≡ S.faults sink.old) }
    // Empty bytes make no put.
    ensures nothing { bytes.now ≡ [] → sink.new ≡ sink.old }
{
    let mut at = 0;
    while at < bytes.len() {
        at += sink.put(alloc, &bytes[at..])?;
    }
    Ok(())
}

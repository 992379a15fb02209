use super::{PutFault, Sink};
use std::alloc::Global;
use std::io::{Stderr, Stdout, Write};

/// A sink over a writer of the system. It tells no bytes, and counts the writes that fail or take nothing.
#[derive(Drop)]
pub struct RealSink<W: Write> {
    writer: W,
    faults: u64,
}

/// Standard output.
pub type RealOut = RealSink<Stdout>;

/// Standard error.
pub type RealErr = RealSink<Stderr>;

impl<W: Write> RealSink<W> {
    ghost use Rattle.std.specs.Prelude.{◌≡◌};

    /// A sink over this writer.
    pub fn new(writer: W) -> RealSink<W>
        ensures { result.faults ≡ 0 }
    {
        RealSink { writer, faults: 0 }
    }
}

impl<W: Write> Sink for RealSink<W> {
    ghost use Rattle.std.specs.Prelude.{◌≡◌, ◌≢◌, ◌<◌, None, Err, is_ok, length, if◌then◌else◌};
    ghost use Rattle.std.specs.Io.KnownBytes.{WriteAppends};
    ghost use Rattle.mf_io.specs.Counts.{next_count};
    ghost use Rattle.mf_io.specs.Sink.{Puts};

    ghost written = { λ _. None };

    ghost faults = { λ sink. sink.faults };

    fn put(&mut self, _alloc: Global, piece: &[u8]) -> Result<usize, PutFault>
        requires { 0 < length piece.now }
        ensures answer { Puts piece.now None None self.old.faults self.new.faults result }
        // The count rises by one at each fault, and else stays.
        ensures count { self.new.faults ≡ (if is_ok result then self.old.faults else next_count self.old.faults) }
        // On success the writer has taken the front of the piece, and else nothing.
        ensures bytes { WriteAppends (W.contents self.old.writer) (W.contents self.new.writer) result piece.now }
        ensures no_memory { result ≢ Err PutFault.Memory }
    {
        match self.writer.write(piece) {
            Ok(taken) if taken > 0 => Ok(taken),
            _ => {
                self.faults = self.faults.saturating_add(1);
                Err(PutFault::Failed)
            }
        }
    }
}

ghost use Rattle.std.specs.Prelude.{◌<◌};

use super::{List, PutFault, Sink, Text};
use std::alloc::Global;

/// A sink in memory that takes at most a chunk at a put, and whose puts with the listed numbers fail.
///
/// Puts are numbered from 1, but for those that wanted memory; at the greatest `u64` numbers and counts stand still.
#[derive(Debug, Drop)]
pub struct MemorySink {
    chunk: usize,
    failing: List<u64>,
    puts: u64,
    faults: u64,
    bytes: Text,
    ghost takes: { 0 < chunk },
}

impl MemorySink {
    ghost use Rattle.std.specs.Prelude.{◌≡◌, ◌≤◌, []};

    /// An empty sink that takes at most `chunk` bytes at a put, with the numbers of the puts that fail.
    pub fn new(alloc: Global, chunk: usize, failing: List<u64>) -> MemorySink
        requires { 1 ≤ chunk }
        ensures chunk { result.chunk ≡ chunk }
        ensures failing { result.failing ≡ failing }
        ensures puts { result.puts ≡ 0 }
        ensures faults { result.faults ≡ 0 }
        ensures bytes { result.bytes ≡ [] }
    {
        MemorySink {
            chunk,
            failing,
            puts: 0,
            faults: 0,
            bytes: Text::new(alloc),
        }
    }

    /// The bytes that were put so far.
    pub fn bytes(&self) -> &[u8]
        ensures { result.now ≡ self.now.bytes }
    {
        self.bytes.as_slice()
    }
}

impl Sink for MemorySink {
    ghost use Rattle.std.specs.Prelude.{◌≡◌, ◌<◌, ◌≤◌, Some, Err, length};
    ghost use Rattle.mf_io.specs.Sink.{Puts};
    ghost use Rattle.mf_io.specs.MemorySink.{PutsInMemory};

    ghost written = { λ sink. Some sink.bytes };

    ghost faults = { λ sink. sink.faults };

    fn put(&mut self, _alloc: Global, piece: &[u8]) -> Result<usize, PutFault>
        requires { 0 < length piece.now }
        ensures answer { Puts piece.now (Some self.old.bytes) (Some self.new.bytes) self.old.faults self.new.faults result }
        ensures counted { self.old.faults ≤ self.new.faults }
        ensures memory { result ≡ Err PutFault.Memory → self.new ≡ self.old }
        ensures exact { PutsInMemory piece.now self.old self.new result }
    {
        let number = self.puts.saturating_add(1);
        if self.failing.as_slice().contains(&number) {
            self.puts = number;
            self.faults = self.faults.saturating_add(1);
            return Err(PutFault::Failed);
        }
        let taken = self.chunk.min(piece.len());
        self.bytes.extend_from_slice(&piece[..taken])?;
        self.puts = number;
        Ok(taken)
    }
}

ghost use Rattle.std.specs.Prelude.{◌≡◌, ◌<◌, ◌^◌, ◌-◌, None};
ghost use Rattle.mf_io.specs.Folder.{Reads};

use super::folder::note;
use super::{Folder, List, LoadFault, Loaded, Loading, Text};
use std::alloc::Global;
use std::fs;
use std::io::{ErrorKind, Read};
use std::rt::Files;

/// The files of the system. It tells no bytes, and keeps the log of its loads.
#[derive(Drop)]
pub struct RealFolder<'a, R: Files> {
    files: &'a R,
    log: List<Loading>,
}

impl<'a, R: Files> RealFolder<'a, R> {
    ghost use Rattle.std.specs.Prelude.{◌≡◌, []};

    /// The files of this runtime.
    pub fn new(alloc: Global, files: &'a R) -> RealFolder<'a, R>
        ensures { result.log ≡ [] }
    {
        RealFolder {
            files,
            log: List::new(alloc),
        }
    }
}

impl<'a, R: Files> Folder for RealFolder<'a, R> {
    ghost use Rattle.std.specs.Prelude.{None};

    ghost held = { λ _ _. None };

    ghost log = { λ folder. folder.log };

    fn load(&mut self, alloc: Global, name: &str, most: usize) -> Result<Loaded, LoadFault> {
        // The room in the log is made before the file is opened.
        let copy = Text::from_slice(alloc, name.as_bytes())?;
        self.log.reserve_one()?;
        let outcome = match fs::open(self.files, name) {
            Ok(file) => read_whole(alloc, file, most),
            Err(_) => Err(LoadFault::Failed),
        };
        note(&mut self.log, copy, outcome)
    }
}

// Reads all bytes that the reader has left, but at most one more than allowed, which tells that there are too many.
fn read_whole<F: Read + Drop>(alloc: Global, reader: F, most: usize) -> Result<Loaded, LoadFault>
    ensures bound { Reads None most result }
    ensures bytes { most < 2 ^ 64 - 1 → Reads (F.remaining reader) most result }
{
    let limit = (most as u64).saturating_add(1);
    let mut bytes = Vec::new(alloc);
    match reader.take(limit).read_to_end(&mut bytes) {
        Ok(_) if bytes.len() > most => Ok(Loaded::TooLong),
        Ok(_) => Ok(Loaded::Whole(Text::from_vec(bytes))),
        Err(error) if error.kind() == ErrorKind::OutOfMemory => Err(LoadFault::Memory),
        Err(_) => Err(LoadFault::Failed),
    }
}

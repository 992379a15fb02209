use super::folder::{copy_of, find_file, note};
use super::{Folder, List, LoadFault, Loaded, Loading, Text};
use std::alloc::Global;

/// A folder in memory, some of whose loads fail: those with the listed numbers, and those of a name that it
/// doesn't hold. Of several files with one name it holds the first.
///
/// The loads in its log are numbered from 1; at the greatest `u64` the numbers stand still.
#[derive(Debug, Drop)]
pub struct MemoryFolder {
    files: List<(Text, Text)>,
    failing: List<u64>,
    log: List<Loading>,
}

impl MemoryFolder {
    ghost use Rattle.std.specs.Prelude.{◌≡◌, []};
    ghost use Rattle.mf_io.specs.Folder.{Answers};
    ghost use Rattle.mf_io.specs.MemoryFolder.{outcome_of};

    /// A folder of these files, each a name and its bytes, with the numbers of the loads that fail.
    pub fn new(alloc: Global, files: List<(Text, Text)>, failing: List<u64>) -> MemoryFolder
        ensures { result ≡ record { files = files; failing = failing; log = [] } }
    {
        MemoryFolder {
            files,
            failing,
            log: List::new(alloc),
        }
    }

    /// The loads so far, in order.
    pub fn log(&self) -> &[Loading]
        ensures { result.now ≡ self.now.log }
    {
        self.log.as_slice()
    }

    // What the next load answers.
    fn outcome(&self, alloc: Global, name: &[u8], most: usize) -> Result<Loaded, LoadFault>
        ensures { Answers (outcome_of self.now name.now most) result }
    {
        let number = (self.log.len() as u64).saturating_add(1);
        if self.failing.as_slice().contains(&number) {
            return Err(LoadFault::Failed);
        }
        match find_file(self.files.as_slice(), name) {
            Some(bytes) => copy_of(alloc, bytes.as_slice(), most),
            None => Err(LoadFault::Failed),
        }
    }
}

impl Folder for MemoryFolder {
    ghost use Rattle.std.specs.Prelude.{◌≡◌, ◌<◌, Err};
    ghost use Rattle.mf_io.specs.Folder.{Loads, Answers, first_named, read_faults};
    ghost use Rattle.mf_io.specs.MemoryFolder.{outcome_of};

    ghost held = { λ folder name. first_named folder.files name };

    ghost log = { λ folder. folder.log };

    fn load(&mut self, alloc: Global, name: &str, most: usize) -> Result<Loaded, LoadFault>
        ensures answer { Loads (first_named self.old.files name.now) name.now most self.old.log self.new.log result }
        ensures fault { result ≡ Err LoadFault.Failed → read_faults self.old.log < read_faults self.new.log }
        ensures kept { first_named self.new.files ≡ first_named self.old.files }
        ensures memory { result ≡ Err LoadFault.Memory → self.new ≡ self.old }
        ensures exact { Answers (outcome_of self.old name.now most) result }
        ensures same { self.new ≡ record self.old { log = self.new.log } }
    {
        let copy = Text::from_slice(alloc, name.as_bytes())?;
        let outcome = self.outcome(alloc, name.as_bytes(), most);
        note(&mut self.log, copy, outcome)
    }
}

ghost use Rattle.std.specs.Prelude.{◌≡◌, ◌<◌, ℕ, List, Option, Err};
ghost use Rattle.std.specs.Option.{option_copied};
ghost use Rattle.mf_io.specs.declared.folder.Loading.{Loading};
ghost use Rattle.mf_io.specs.Folder.{Loads, Noted, Answers, loaded_of, first_named, read_faults};

use super::{List, Memory, Text};
use std::alloc::Global;

/// One load of a folder: the name that was asked for, and whether the load failed.
#[derive(Debug, Drop)]
pub struct Loading {
    pub name: Text,
    pub failed: bool,
}

/// What a load found.
#[derive(Debug, Drop)]
pub enum Loaded {
    /// All bytes of the file.
    Whole(Text),

    /// The file has more bytes than were allowed.
    TooLong,
}

/// Why a load found nothing.
#[derive(Clone, Copy, Debug, PartialEq, Eq)]
pub enum LoadFault {
    /// The file could not be read.
    Failed,

    /// No memory was left.
    Memory,
}

impl From<Memory> for LoadFault {
    ghost use Rattle.std.specs.Prelude.{◌≡◌};
    ghost use Rattle.mf_io.specs.declared.folder.LoadFault.{LoadFault};

    ghost from_gives = { λ _ fault. fault ≡ LoadFault.Memory };

    fn from(_error: Memory) -> LoadFault {
        LoadFault::Memory
    }
}

/// A folder that whole files are loaded from by their names.
///
/// Its count of read faults is the number of failed loads in its log, so that it never falls.
pub trait Folder {
    /// The bytes that it holds under each name, where it tells them.
    ghost held: { Self → List ℕ → Option (List ℕ) };

    /// Each load so far that didn't want memory, in order.
    ghost log: { Self → List Loading };

    /// Loads the file `name`, of at most `most` bytes.
    fn load(&mut self, alloc: Global, name: &str, most: usize) -> Result<Loaded, LoadFault>
        ensures answer { Loads (held self.old name.now) name.now most (log self.old) (log self.new) result }
        ensures fault { result ≡ Err LoadFault.Failed → read_faults (log self.old) < read_faults (log self.new) }
        // What is held, and whether it is told, stays as it was under each name.
        ensures kept { held self.new ≡ held self.old }
        ensures memory { result ≡ Err LoadFault.Memory → self.new ≡ self.old };
}

// Notes the load of `name` in the log and hands its outcome on. Want of memory is not noted.
pub(crate) fn note(
    log: &mut List<Loading>,
    name: Text,
    outcome: Result<Loaded, LoadFault>,
) -> Result<Loaded, LoadFault>
    ensures { Noted name outcome log.old log.new result }
{
    let failed = match &outcome {
        Ok(_) => false,
        Err(LoadFault::Failed) => true,
        Err(LoadFault::Memory) => return Err(LoadFault::Memory),
    };
    log.push(Loading { name, failed })?;
    outcome
}

// The file with these bytes, if it has no more than allowed.
pub(crate) fn copy_of(alloc: Global, bytes: &[u8], most: usize) -> Result<Loaded, LoadFault>
    ensures { Answers (loaded_of most bytes.now) result }
{
    if bytes.len() > most {
        return Ok(Loaded::TooLong);
    }
    Ok(Loaded::Whole(Text::from_slice(alloc, bytes)?))
}

// The bytes of the first file with this name.
pub(crate) fn find_file<'a>(files: &'a [(Text, Text)], name: &[u8]) -> Option<&'a Text>
    ensures { option_copied result ≡ first_named files.now name.now }
{
    files
        .iter()
        .find(|file| file.0.as_slice() == name)
        .map(|file| &file.1)
}

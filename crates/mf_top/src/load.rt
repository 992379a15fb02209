ghost use Rattle.std.specs.Prelude.{◌≡◌, ◌++◌};
ghost use Rattle.std.specs.Str.{IsUtf8};
ghost use Rattle.mf_top.specs.Decision.{stops, refuses, IsUnlessMemory};
ghost use Rattle.mf_top.specs.Loads.{LoadsFile, LoadsTwo, LoadsThree};
ghost use Rattle.mf_top.specs.Texts.{unread_text, too_long_text};

use crate::decision::Decision;
use crate::texts::{too_long_text, unread_text};
use mf_io::{Folder, LoadFault, Loaded};
use mf_model::Text;
use std::alloc::Global;

/// The most bytes that a file may have.
pub const GREATEST_LENGTH: usize = 16_777_216;

/// The bytes of a domain file and of a problem file.
#[derive(Debug, Drop)]
pub(crate) struct Two {
    pub(crate) domain: mf_io::Text,
    pub(crate) problem: mf_io::Text,
}

/// The bytes of a domain file, of a problem file, and of a third.
#[derive(Debug, Drop)]
pub(crate) struct Three {
    pub(crate) domain: mf_io::Text,
    pub(crate) problem: mf_io::Text,
    pub(crate) third: mf_io::Text,
}

fn stop_unread(alloc: Global, name: &Text) -> Decision
    ensures { IsUnlessMemory (stops 4 (unread_text name.now)) result }
{
    match unread_text(alloc, name.as_slice()) {
        Ok(text) => Decision::stops(alloc, 4, text),
        Err(_) => Decision::out_of_memory(alloc),
    }
}

fn refuse_length(alloc: Global, name: &Text) -> Decision
    ensures { IsUnlessMemory (refuses (too_long_text name.now)) result }
{
    match too_long_text(alloc, name.as_slice()) {
        Ok(text) => Decision::refuses(alloc, text),
        Err(_) => Decision::out_of_memory(alloc),
    }
}

/// Loads one file.
pub(crate) fn load_file<F: Folder>(
    alloc: Global,
    name: &Text,
    files: &mut F,
) -> Result<mf_io::Text, Decision>
    requires { IsUtf8 name.now }
    ensures answer { LoadsFile (F.held files.old name.now) name.now (F.log files.old) (F.log files.new) result }
    ensures kept { F.held files.new ≡ F.held files.old }
{
    let Ok(path) = str::from_utf8(name.as_slice()) else {
        unreachable!()
    };
    match files.load(alloc, path, GREATEST_LENGTH) {
        Ok(Loaded::Whole(bytes)) => Ok(bytes),
        Ok(Loaded::TooLong) => Err(refuse_length(alloc, name)),
        Err(LoadFault::Failed) => Err(stop_unread(alloc, name)),
        Err(LoadFault::Memory) => Err(Decision::out_of_memory(alloc)),
    }
}

/// Loads a domain file and a problem file.
pub(crate) fn load_two<F: Folder>(
    alloc: Global,
    domain: &Text,
    problem: &Text,
    files: &mut F,
) -> Result<Two, Decision>
    requires domain { IsUtf8 domain.now }
    requires problem { IsUtf8 problem.now }
    ensures { LoadsTwo (F.held files.old) domain.now problem.now (F.log files.old) (F.log files.new) result }
{
    let domain = load_file(alloc, domain, files)?;
    let problem = load_file(alloc, problem, files)?;
    Ok(Two { domain, problem })
}

/// Loads a domain file, a problem file and a third.
pub(crate) fn load_three<F: Folder>(
    alloc: Global,
    domain: &Text,
    problem: &Text,
    third: &Text,
    files: &mut F,
) -> Result<Three, Decision>
    requires domain { IsUtf8 domain.now }
    requires problem { IsUtf8 problem.now }
    requires third { IsUtf8 third.now }
    ensures { LoadsThree (F.held files.old) domain.now problem.now third.now (F.log files.old) (F.log files.new) result }
{
    let domain = load_file(alloc, domain, files)?;
    let problem = load_file(alloc, problem, files)?;
    let third = load_file(alloc, third, files)?;
    Ok(Three {
        domain,
        problem,
        third,
    })
}

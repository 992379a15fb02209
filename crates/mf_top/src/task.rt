ghost use Rattle.std.specs.Prelude.{◌≡◌, ◌≤◌, ◌⊎◌, IfOk, length};
ghost use Rattle.mf_model.specs.ResolvedTask.{IsResolvedTask};
ghost use Rattle.mf_top.specs.Decision.{refuses, IsUnlessMemory};
ghost use Rattle.mf_top.specs.Loads.{greatest_length};
ghost use Rattle.mf_top.specs.Task.{ReadsTask, name_of};
ghost use Rattle.mf_top.specs.Texts.{refusal_text};

use crate::decision::Decision;
use crate::texts::refusal_text;
use mf_input::{InputFault, Refusal};
use mf_model::{FileKind, Text, TypedTask};
use std::alloc::Global;

fn name_of<'a>(file: FileKind, domain: &'a Text, problem: &'a Text) -> &'a Text
    ensures { result.now ≡ name_of file domain.now problem.now }
{
    match file {
        FileKind::DomainFile => domain,
        FileKind::ProblemFile => problem,
    }
}

// The file of this name is refused.
fn refuse_file(alloc: Global, name: &Text, refusal: &Refusal) -> Decision
    ensures { IsUnlessMemory (refuses (refusal_text name.now refusal.now)) result }
{
    match refusal_text(alloc, name.as_slice(), refusal) {
        Ok(text) => Decision::refuses(alloc, text),
        Err(_) => Decision::out_of_memory(alloc),
    }
}

/// The task is refused with this text.
pub(crate) fn refuse_task(alloc: Global, text: &[u8]) -> Decision
    ensures { IsUnlessMemory (refuses text.now) result }
{
    match Text::from_slice(alloc, text) {
        Ok(text) => Decision::refuses(alloc, text),
        Err(_) => Decision::out_of_memory(alloc),
    }
}

/// Reads the task of the bytes of two files, whose names are given for the texts of refusals.
pub(crate) fn read_task(
    alloc: Global,
    domain_name: &Text,
    problem_name: &Text,
    domain: &[u8],
    problem: &[u8],
) -> Result<TypedTask, Decision>
    requires domain_size { length domain.now ≤ greatest_length }
    requires problem_size { length problem.now ≤ greatest_length }
    ensures answer { ReadsTask domain_name.now problem_name.now domain.now problem.now result }
    ensures resolved { IfOk result IsResolvedTask }
{
    match mf_input::read_task(alloc, domain, problem) {
        Ok(task) => Ok(task),
        Err(InputFault::Refused { refusal }) => {
            let name = name_of(refusal.file, domain_name, problem_name);
            Err(refuse_file(alloc, name, &refusal))
        }
        Err(InputFault::Memory) => Err(Decision::out_of_memory(alloc)),
    }
}

ghost use Rattle.std.specs.Prelude.{◌≡◌, ◌≤◌, length, IfOk, IfErr};
ghost use Rattle.mf_model.specs.ResolvedTask.{IsResolvedTask};
ghost use Rattle.mf_input.specs.Files.{IsTaskOfFiles};
ghost use Rattle.mf_input.specs.Kinds.{refused_at, file_refusal, name_refusal};
ghost use Rattle.mf_input.specs.Refusals.{ReadsFiles, ReadsNames, ReadsProblem, IsFirstRefusal, HaveNoTask};

use crate::files::{domain_file, problem_file};
use crate::refusal::{FileFault, InputFault, Refusal, RefusalKind};
use mf_model::{Domain, FileKind, Problem, TypedTask};
use mf_types::{NameFault, resolve};
use std::alloc::Global;

fn refused(file: FileKind, kind: RefusalKind, at: u32) -> InputFault
    ensures { result ≡ refused_at file kind at }
{
    InputFault::Refused {
        refusal: Refusal { file, kind, at },
    }
}

fn file_refused(file: FileKind, fault: FileFault) -> InputFault
    ensures { result ≡ file_refusal file fault }
{
    match fault {
        FileFault::Refused { kind, at } => refused(file, kind, at),
        FileFault::Memory => InputFault::Memory,
    }
}

fn names_refused(fault: NameFault) -> InputFault
    ensures { result ≡ name_refusal fault }
{
    match fault {
        NameFault::Twice { file, span } => refused(file, RefusalKind::DeclaredTwice, span.start),
        NameFault::TypeCycle { file, span } => refused(file, RefusalKind::TypeCycle, span.start),
        NameFault::UnknownName { file, span } => refused(
            file,
            RefusalKind::UnknownName,
            span.start,
        ),
        NameFault::WrongCount { file, span } => refused(file, RefusalKind::WrongCount, span.start),
        NameFault::WrongType { file, span } => refused(file, RefusalKind::WrongType, span.start),
        NameFault::TooMany { file, span } => refused(file, RefusalKind::TooMany, span.start),
        NameFault::WideNumber { file, span } => refused(file, RefusalKind::WideNumber, span.start),
        NameFault::NotLinear { file, span } => refused(file, RefusalKind::NotLinear, span.start),
        NameFault::Memory => InputFault::Memory,
    }
}

// The task of a domain and a problem.
fn read_names(alloc: Global, domain: &Domain, problem: &Problem) -> Result<TypedTask, InputFault>
    ensures { ReadsNames domain.now problem.now result }
{
    match resolve(alloc, domain, problem) {
        Ok(task) => Ok(task),
        Err(fault) => Err(names_refused(fault)),
    }
}

// The task of a domain and a problem file.
fn read_problem(alloc: Global, domain: &Domain, problem: &[u8]) -> Result<TypedTask, InputFault>
    requires { length problem.now ≤ 16777216 }
    ensures { ReadsProblem domain.now problem.now result }
{
    match problem_file(alloc, problem) {
        Ok(problem) => read_names(alloc, domain, &problem),
        Err(fault) => Err(file_refused(FileKind::ProblemFile, fault)),
    }
}

// The task of a domain file and a problem file.
fn read(alloc: Global, domain: &[u8], problem: &[u8]) -> Result<TypedTask, InputFault>
    requires domain_size { length domain.now ≤ 16777216 }
    requires problem_size { length problem.now ≤ 16777216 }
    ensures { ReadsFiles domain.now problem.now result }
{
    match domain_file(alloc, domain) {
        Ok(domain) => read_problem(alloc, &domain, problem),
        Err(fault) => Err(file_refused(FileKind::DomainFile, fault)),
    }
}

/// The task of a domain file and a problem file of at most 16,777,216 bytes each. It is a resolved task.
///
/// # Errors
///
/// `Refused` names the first reason in the order of reading: the domain's tokens, its tree and its form, then the
/// problem's, and then the names of both files.
pub fn read_task(alloc: Global, domain: &[u8], problem: &[u8]) -> Result<TypedTask, InputFault>
    requires domain_size { length domain.now ≤ 16777216 }
    requires problem_size { length problem.now ≤ 16777216 }
    ensures task { IfOk result (IsTaskOfFiles domain.now problem.now) }
    ensures resolved { IfOk result IsResolvedTask }
    ensures refusal { IfErr result (IsFirstRefusal domain.now problem.now) }
    ensures none { IfErr result (HaveNoTask domain.now problem.now) }
{
    read(alloc, domain, problem)
}

ghost use Rattle.std.specs.Prelude.{◌≡◌, ◌≤◌, Err, length};
ghost use Rattle.mf_reader.specs.GrammarFiles.{IsDomain, IsProblem};
ghost use Rattle.mf_input.specs.Kinds.{lex_refusal, tree_refusal, form_refusal};
ghost use Rattle.mf_input.specs.Refusals.{ReadsTree, ReadsFile, domain_form_faults, problem_form_faults};

use crate::refusal::{FileFault, RefusalKind};
use mf_lex::{LexFault, TreeFault, tokens, tree};
use mf_model::{Domain, Problem, Tree};
use mf_reader::{FormFault, read_domain, read_problem};
use std::alloc::Global;

fn lex_fault(fault: LexFault) -> FileFault
    ensures { result ≡ lex_refusal fault }
{
    match fault {
        LexFault::BadByte { at } => FileFault::Refused {
            kind: RefusalKind::BadByte,
            at,
        },
        LexFault::TooLong { at } => FileFault::Refused {
            kind: RefusalKind::WordTooLong,
            at,
        },
        LexFault::Memory => FileFault::Memory,
    }
}

fn tree_fault(fault: TreeFault) -> FileFault
    ensures { result ≡ tree_refusal fault }
{
    match fault {
        TreeFault::Unbalanced { at } => FileFault::Refused {
            kind: RefusalKind::Unbalanced,
            at,
        },
        TreeFault::TooDeep { at } => FileFault::Refused {
            kind: RefusalKind::TooDeep,
            at,
        },
        TreeFault::Memory => FileFault::Memory,
    }
}

fn form_fault(fault: FormFault) -> FileFault
    ensures { result ≡ form_refusal fault }
{
    match fault {
        FormFault::UnknownRequirement { span } => FileFault::Refused {
            kind: RefusalKind::UnknownRequirement,
            at: span.start,
        },
        FormFault::LeftOut { span } => FileFault::Refused {
            kind: RefusalKind::LeftOut,
            at: span.start,
        },
        FormFault::BadForm { span } => FileFault::Refused {
            kind: RefusalKind::BadForm,
            at: span.start,
        },
        FormFault::Memory => FileFault::Memory,
    }
}

// The tree of a file.
fn read_tree(alloc: Global, source: &[u8]) -> Result<Tree, FileFault>
    requires { length source.now ≤ 16777216 }
    ensures { ReadsTree source.now result }
{
    match tokens(alloc, source) {
        Ok(found) => match tree(alloc, source, &found) {
            Ok(tree) => Ok(tree),
            Err(fault) => Err(tree_fault(fault)),
        },
        Err(fault) => Err(lex_fault(fault)),
    }
}

/// The domain of a file.
pub(crate) fn domain_file(alloc: Global, source: &[u8]) -> Result<Domain, FileFault>
    requires { length source.now ≤ 16777216 }
    ensures { ReadsFile IsDomain domain_form_faults source.now result }
{
    let tree = read_tree(alloc, source)?;
    match read_domain(alloc, &tree) {
        Ok(domain) => Ok(domain),
        Err(fault) => Err(form_fault(fault)),
    }
}

/// The problem of a file.
pub(crate) fn problem_file(alloc: Global, source: &[u8]) -> Result<Problem, FileFault>
    requires { length source.now ≤ 16777216 }
    ensures { ReadsFile IsProblem problem_form_faults source.now result }
{
    let tree = read_tree(alloc, source)?;
    match read_problem(alloc, &tree) {
        Ok(problem) => Ok(problem),
        Err(fault) => Err(form_fault(fault)),
    }
}

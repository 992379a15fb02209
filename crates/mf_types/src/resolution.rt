ghost use Rattle.std.specs.Prelude.{◌≡◌, [], Some};
ghost use Rattle.mf_types.specs.AllFaults.{faults_of};
ghost use Rattle.mf_types.specs.Names.{declared_by};
ghost use Rattle.mf_types.specs.Resolved as spec;
ghost use Rattle.mf_types.specs.Tables.{declared_of};

use crate::building::build;
use crate::checking::check;
use crate::fault::NameFault;
use crate::least::{Fault, FaultKind};
use crate::refusal::Refusal;
use crate::tables::Tables;
use mf_model::{Domain, Problem, TypedTask};
use std::alloc::Global;

/// The error that names a fault.
fn named(fault: Fault) -> NameFault
    ensures { spec.fault_named result ≡ Some fault }
{
    let Fault { kind, file, span } = fault;
    match kind {
        FaultKind::Twice => NameFault::Twice { file, span },
        FaultKind::TypeCycle => NameFault::TypeCycle { file, span },
        FaultKind::UnknownName => NameFault::UnknownName { file, span },
        FaultKind::WrongCount => NameFault::WrongCount { file, span },
        FaultKind::WrongType => NameFault::WrongType { file, span },
        FaultKind::TooMany => NameFault::TooMany { file, span },
        FaultKind::WideNumber => NameFault::WideNumber { file, span },
        FaultKind::NotLinear => NameFault::NotLinear { file, span },
    }
}

/// The task of two files without faults.
fn faultless_task(
    alloc: Global,
    tables: &Tables,
    domain: &Domain,
    problem: &Problem,
) -> Result<TypedTask, NameFault>
    requires tables { declared_of tables.now ≡ declared_by domain.now problem.now }
    requires clean { faults_of domain.now problem.now ≡ [] }
    ensures { spec.Answers domain.now problem.now result }
{
    match build(alloc, tables, domain, problem) {
        Ok(task) => Ok(task),
        Err(Refusal::Memory) => Err(NameFault::Memory),
        Err(Refusal::Refused) => unreachable!(),
    }
}

/// The task of two files, or the fault of them that is named first.
fn answer(
    alloc: Global,
    tables: &Tables,
    domain: &Domain,
    problem: &Problem,
) -> Result<TypedTask, NameFault>
    requires tables { declared_of tables.now ≡ declared_by domain.now problem.now }
    ensures { spec.Answers domain.now problem.now result }
{
    let fault = check(alloc, tables, domain, problem)?;
    match fault {
        Some(fault) => Err(named(fault)),
        None => faultless_task(alloc, tables, domain, problem),
    }
}

/// The task of a domain and a problem. It is refused exactly where a fault stands, and the error then
/// names the first of all that stand: those of the domain before those of the problem, then by their
/// first byte, then in the order of the variants.
pub fn resolve(alloc: Global, domain: &Domain, problem: &Problem) -> Result<TypedTask, NameFault>
    ensures { spec.Answers domain.now problem.now result }
{
    let tables = Tables::new(alloc, domain, problem)?;
    answer(alloc, &tables, domain, problem)
}

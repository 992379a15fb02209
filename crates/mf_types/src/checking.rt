ghost use Rattle.std.specs.Prelude.{◌≡◌, None, IfOk};
ghost use Rattle.mf_types.specs.AllFaults as spec;
ghost use Rattle.mf_types.specs.Faults.{after};
ghost use Rattle.mf_types.specs.Tables.{declared_of};

use crate::declarations::declarations;
use crate::least::Fault;
use crate::tables::Tables;
use crate::uses::uses;
use mf_model::{Domain, Problem};
use std::alloc::{AllocError, Global};

/// The fault that is answered, if any stands.
#[tactic(auto, using(crate::proofs::After::after_append))]
pub(crate) fn check(
    alloc: Global,
    tables: &Tables,
    domain: &Domain,
    problem: &Problem,
) -> Result<Option<Fault>, AllocError>
    ensures { IfOk result
        (λ fault. fault ≡ after None
        (spec.faults_in (declared_of tables.now) domain.now problem.now)) }
{
    let best = declarations(alloc, None, tables, domain, problem)?;
    uses(alloc, best, tables, domain, problem)
}

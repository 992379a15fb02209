ghost use Rattle.mf_ground.specs.Courses.{IsStart};
ghost use Rattle.std.specs.Prelude.{IfOk};

use crate::facts::{Facts, start_facts};
use crate::touched::{Touched, touched_predicates};
use mf_model::TypedTask;
use std::alloc::{AllocError, Global};

/// What static tests are asked of: the predicates that are not static, and the atoms that are true at the start.
#[derive(Drop)]
pub(crate) struct Start {
    pub(crate) touched: Touched,
    pub(crate) facts: Facts,
}

pub(crate) fn start_of(alloc: Global, task: &TypedTask) -> Result<Start, AllocError>
    ensures { IfOk result (IsStart task.now) }
{
    let touched = touched_predicates(alloc, task.actions.as_slice())?;
    let facts = start_facts(alloc, task.atoms.as_slice())?;
    Ok(Start { touched, facts })
}

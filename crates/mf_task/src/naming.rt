use std::marker::Brand;

/// A type that names a case: a task, a heuristic and a budget, which contracts alone see. Values whose types carry the
/// same name speak of the same case.
pub trait Naming {
    ghost use Rattle.mf_task.specs.Successors.{Case};

    ghost case: { Case };
}

/// A call at this type picks its case itself.
impl Naming for Brand {
    ghost use Rattle.mf_task.specs.NoCase.{no_case};

    ghost case = { no_case };
}

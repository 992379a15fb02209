ghost use Rattle.std.specs.Prelude.{List};
ghost use Rattle.mf_model.specs.declared.state.Instance.{Instance};
ghost use Rattle.mf_model.specs.declared.task.TypedTask.{TypedTask};
ghost use Rattle.mf_model.specs.ResolvedTask.{IsResolvedTask};
ghost use Rattle.mf_task.specs.Grounding.{ground_of};
ghost use Rattle.mf_task.specs.NumberedTasks.{HasProperForms};

/// The constants and coefficients of the forms of a resolved task are in lowest terms.
pub fn forms_are_in_lowest_terms()
    ensures { (task : TypedTask) (instances : List Instance) → IsResolvedTask task → HasProperForms (ground_of task instances) }
{}

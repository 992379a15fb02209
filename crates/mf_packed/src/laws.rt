ghost use Rattle.std.specs.Prelude.{◌≡◌, true, List};
ghost use Rattle.mf_task.specs.NumberedTasks.{is_numbered};
ghost use Rattle.mf_model.specs.declared.state.Instance.{Instance};
ghost use Rattle.mf_model.specs.declared.task.TypedTask.{TypedTask};
ghost use Rattle.mf_task.specs.Grounding.{ground_of};

/// Each effect of a packed task changes an atom or a term of that task.
pub fn packed_tasks_are_numbered()
    ensures { (task : TypedTask) (instances : List Instance) → is_numbered (ground_of task instances) ≡ true }
{}

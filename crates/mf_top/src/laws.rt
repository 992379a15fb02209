ghost use Rattle.std.specs.Prelude.{◌↔◌};
ghost use Rattle.mf_model.specs.ResolvedTask.{IsResolvedTask};
ghost use Rattle.mf_model.specs.declared.task.TypedTask.{TypedTask};
ghost use Rattle.mf_plain.specs.PlainTask.{IsPlainTask};
ghost use Rattle.mf_plain.specs.SearchTask.{IsSearchTask};

/// The search takes a resolved task, as each task of two files is, exactly where the task is plain.
pub fn plain_tasks_are_searched()
    ensures { (task : TypedTask) → IsResolvedTask task → (IsPlainTask task ↔ IsSearchTask task) }
{}

ghost use Rattle.std.specs.Prelude.{List};
ghost use Rattle.mf_store.specs.Rows.{RowLists};
ghost use Rattle.mf_model.specs.declared.state.Instance.{Instance};
ghost use Rattle.mf_model.specs.declared.task.TypedTask.{TypedTask};
ghost use Rattle.mf_task.specs.Grounding.{ground_of, numbering_of};
ghost use Rattle.mf_task.specs.Rows.{IsRowOf, sight_of};
ghost use Rattle.mf_bridge.specs.UnlistedAtoms.{HidesUnlistedAtoms};

/// No row of the task's shape shows an atom that is none of the task's.
pub fn rows_hide_unlisted_atoms()
    ensures { (task : TypedTask) (instances : List Instance) (row : RowLists) → IsRowOf (ground_of task instances) row → HidesUnlistedAtoms (numbering_of task instances) (sight_of row) }
{}

ghost use Rattle.std.specs.Prelude.{◌≡◌, true, List, None};
ghost use Rattle.mf_store.specs.Rows.{RowLists};
ghost use Rattle.mf_model.specs.declared.state.Instance.{Instance};
ghost use Rattle.mf_model.specs.declared.task.TypedTask.{TypedTask};
ghost use Rattle.mf_model.specs.Plans.{IsPlan};
ghost use Rattle.mf_model.specs.ResolvedTask.{IsResolvedTask};
ghost use Rattle.mf_meaning.specs.SearchPlans.{IsSearchPlanFrom};
ghost use Rattle.mf_bridge.specs.StoredRows.{HasLowestValues};
ghost use Rattle.mf_task.specs.CaseRows.{meaning_of};
ghost use Rattle.mf_task.specs.LimitClosure.{is_dead};
ghost use Rattle.mf_task.specs.Rows.{IsRowOf, sight_of};
ghost use Rattle.mf_task.specs.Successors.{Case, packed_of, space_of};

/// No plan leads from a row's state of infinite value. The task has no plan where the start's row is dead.
pub fn infinite_states_have_no_plan()
    ensures state { (case : Case) (row : RowLists) → IsResolvedTask case.task → IsRowOf (packed_of case.task) row → HasLowestValues row → (space_of case).value (meaning_of case row) ≡ None → (steps : List Instance) → IsSearchPlanFrom case.task (meaning_of case row) steps → ⊥ }
    ensures start { (task : TypedTask) → IsResolvedTask task → is_dead (packed_of task) (sight_of (packed_of task).start) ≡ true → (steps : List Instance) → IsPlan task steps → ⊥ }
{}

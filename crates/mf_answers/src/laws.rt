ghost use Rattle.std.specs.Prelude.{◌≡◌, true, List};
ghost use Rattle.mf_store.specs.Rows.{RowLists};
ghost use Rattle.mf_model.specs.declared.state.Instance.{Instance};
ghost use Rattle.mf_model.specs.declared.state.PlainState.{PlainState};
ghost use Rattle.mf_model.specs.declared.task.TypedTask.{TypedTask};
ghost use Rattle.mf_model.specs.Plans.{IsValidFrom};
ghost use Rattle.mf_model.specs.ResolvedTask.{IsResolvedTask};
ghost use Rattle.mf_model.specs.SearchStates.{HasStartCosts, search_state};
ghost use Rattle.mf_meaning.specs.SearchPlans.{IsSearchPlanFrom};
ghost use Rattle.mf_meaning.specs.SortedStates.{IsSortedState};
ghost use Rattle.mf_bridge.specs.StoredRows.{HasLowestValues};
ghost use Rattle.mf_task.specs.LimitClosure.{is_dead};
ghost use Rattle.mf_task.specs.Rows.{IsRowOf, sight_of};
ghost use Rattle.mf_task.specs.RowStates.{state_of};
ghost use Rattle.mf_task.specs.Successors.{packed_of};

/// From the state of a dead row no list of instances is a plan, neither of search states nor of plain ones, whatever states
/// it passes.
pub fn dead_rows_have_no_plan()
    ensures search { (task : TypedTask) (row : RowLists) → IsResolvedTask task → IsRowOf (packed_of task) row → HasLowestValues row → is_dead (packed_of task) (sight_of row) ≡ true → (steps : List Instance) → IsSearchPlanFrom task (state_of task (packed_of task) row) steps → ⊥ }
    ensures plain { (task : TypedTask) (row : RowLists) → IsResolvedTask task → IsRowOf (packed_of task) row → HasLowestValues row → is_dead (packed_of task) (sight_of row) ≡ true → (state : PlainState) → IsSortedState state → HasStartCosts task state → search_state task state ≡ state_of task (packed_of task) row → (steps : List Instance) → IsValidFrom task state steps → ⊥ }
{}

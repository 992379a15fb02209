ghost use Rattle.std.specs.Prelude.{◌≡◌, true, List};
ghost use Rattle.mf_store.specs.Rows.{RowLists};
ghost use Rattle.mf_model.specs.declared.state.Instance.{Instance};
ghost use Rattle.mf_model.specs.declared.task.TypedTask.{TypedTask};
ghost use Rattle.mf_model.specs.Application.{changes_of, is_applicable};
ghost use Rattle.mf_model.specs.SearchStates.{with_costs};
ghost use Rattle.mf_meaning.specs.SearchPlans.{next_search_state};
ghost use Rattle.mf_task.specs.declared.ground.GroundChange.{GroundChange};
ghost use Rattle.mf_task.specs.GroundMeaning.{next_sight};
ghost use Rattle.mf_task.specs.Grounding.{ground_of};
ghost use Rattle.mf_task.specs.Rows.{sight_of};
ghost use Rattle.mf_task.specs.RowStates.{state_of};
ghost use Rattle.mf_bridge.specs.Corresponds.{AreSameChanges, HasSight};

/// Where an instance is applicable and the changes by number are its own, a row that shows what the next row is to show
/// stands for the search state to which the instance leads.
pub fn next_rows_stand_for_next_states()
    ensures { (task : TypedTask) (instances : List Instance) (row next : RowLists) (instance : Instance) (changes : List GroundChange) → HasSight (ground_of task instances) (next_sight (ground_of task instances) (sight_of row) changes) next → AreSameChanges task (ground_of task instances) (sight_of row) changes (changes_of task (with_costs task (state_of task (ground_of task instances) row)) instance) → is_applicable task (with_costs task (state_of task (ground_of task instances) row)) instance ≡ true → state_of task (ground_of task instances) next ≡ next_search_state task (state_of task (ground_of task instances) row) instance }
{}

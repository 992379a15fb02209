ghost use Rattle.std.specs.Prelude.{◌≡◌, ◌↔◌, List, map, All, Contains};
ghost use Rattle.mf_store.specs.Rows.{RowLists};
ghost use Rattle.mf_store.specs.SameRows.{same_rows};
ghost use Rattle.mf_model.specs.declared.state.Instance.{Instance};
ghost use Rattle.mf_model.specs.declared.task.TypedTask.{TypedTask};
ghost use Rattle.mf_model.specs.ResolvedTask.{IsResolvedTask};
ghost use Rattle.mf_model.specs.SearchStates.{search_state, with_costs};
ghost use Rattle.mf_model.specs.States.{look_of, start_of};
ghost use Rattle.mf_meaning.specs.ReachedStates.{IsSearchState};
ghost use Rattle.mf_task.specs.Grounding.{ground_of, numbering_of};
ghost use Rattle.mf_task.specs.Rows.{IsRowOf, sight_of};
ghost use Rattle.mf_task.specs.RowStates.{state_of};
ghost use Rattle.mf_task.specs.SameStates.{same_state};
ghost use Rattle.mf_task.specs.Successors.{sight_in};
ghost use Rattle.mf_bridge.specs.Shows.{Shows};
ghost use Rattle.mf_bridge.specs.StoredRows.{HasLowestValues, HasWords};

/// A row of the task's shape shows what the state that it stands for does, with costs put back, and that state shows by
/// the numbers of atoms and terms what the row does.
pub fn rows_show_their_states()
    ensures look { (task : TypedTask) (instances : List Instance) (row : RowLists) → IsRowOf (ground_of task instances) row → IsResolvedTask task → HasLowestValues row → Shows (numbering_of task instances) (look_of (with_costs task (state_of task (ground_of task instances) row))) (sight_of row) }
    ensures sight { (task : TypedTask) (instances : List Instance) (row : RowLists) → IsRowOf (ground_of task instances) row → sight_in (ground_of task instances) (state_of task (ground_of task instances) row) ≡ sight_of row }
{}

/// The state that a row stands for is a search state.
pub fn rows_stand_for_search_states()
    ensures { (task : TypedTask) (instances : List Instance) (row : RowLists) → IsSearchState task (state_of task (ground_of task instances) row) }
{}

/// Two rows of the task's shape that stand for one state are one row. So a row is equal to another, and is in a list, exactly
/// where its state is equal to the other's, and is in the list of states.
pub fn rows_are_told_apart_by_states()
    ensures apart { (task : TypedTask) (instances : List Instance) (one other : RowLists) → IsRowOf (ground_of task instances) one → IsRowOf (ground_of task instances) other → HasWords one → HasWords other → state_of task (ground_of task instances) one ≡ state_of task (ground_of task instances) other → one ≡ other }
    ensures test { (task : TypedTask) (instances : List Instance) (one other : RowLists) → IsRowOf (ground_of task instances) one → IsRowOf (ground_of task instances) other → HasWords one → HasWords other → same_state (state_of task (ground_of task instances) one) (state_of task (ground_of task instances) other) ≡ same_rows one other }
    ensures list { (task : TypedTask) (instances : List Instance) (rows : List RowLists) (row : RowLists) → All (IsRowOf (ground_of task instances)) rows → IsRowOf (ground_of task instances) row → All HasWords rows → HasWords row → (Contains (map (state_of task (ground_of task instances)) rows) (state_of task (ground_of task instances) row) ↔ Contains rows row) }
{}

/// The start's row is of the task's shape, and stands for the start without the terms of cost functions. In a resolved task its
/// values are in lowest terms.
pub fn starts_are_start_rows()
    ensures state { (task : TypedTask) (instances : List Instance) → state_of task (ground_of task instances) (ground_of task instances).start ≡ search_state task (start_of task) }
    ensures shape { (task : TypedTask) (instances : List Instance) → IsRowOf (ground_of task instances) (ground_of task instances).start }
    ensures lowest { (task : TypedTask) (instances : List Instance) → IsResolvedTask task → HasLowestValues (ground_of task instances).start }
{}

ghost use Rattle.std.specs.Prelude.{◌≡◌, ℕ, true, List, map, Some, None};
ghost use Rattle.std.specs.List.{All};
ghost use Rattle.mf_search.specs.Space.{Listed};
ghost use Rattle.mf_store.specs.Rows.{RowLists};
ghost use Rattle.mf_model.specs.ResolvedTask.{IsResolvedTask};
ghost use Rattle.mf_task.specs.declared.grown.Offspring.{Offspring};
ghost use Rattle.mf_task.specs.declared.grown.Listed.TheVariants as listed;
ghost use Rattle.mf_task.specs.declared.value.Value.{Value};
ghost use Rattle.mf_task.specs.CaseRows.{HasNarrowRow, IsListedOf, IsRoot, IsValueOf, meaning_of, number_of, offspring_of};
ghost use Rattle.mf_task.specs.HeuristicValues.{helpful_of, state_value};
ghost use Rattle.mf_task.specs.Rows.{IsRowOf, sight_of};
ghost use Rattle.mf_task.specs.Successors.{Case, packed_of, space_of};
ghost use Rattle.mf_task.specs.Width.{is_narrow, way_out};
ghost use Rattle.mf_bridge.specs.GroundSuccessors.{AreGroundSuccessors};
ghost use Rattle.mf_bridge.specs.StoredRows.{HasLowestValues};

/// The value of the state that a row stands for is the one at the row.
pub fn values_are_ground_values()
    ensures state { (case : Case) (row : RowLists) → IsRowOf (packed_of case.task) row → (space_of case).value (meaning_of case row) ≡ state_value case.heuristic (packed_of case.task) (sight_of row) }
    ensures row { (case : Case) (row : RowLists) (value : Value) → IsRowOf (packed_of case.task) row → state_value case.heuristic (packed_of case.task) (sight_of row) ≡ number_of value → IsValueOf case row value }
{}

/// The start's row makes a root where it is narrow.
pub fn start_rows_are_roots()
    ensures { (case : Case) (value : Value) → is_narrow (packed_of case.task) (sight_of (packed_of case.task).start) ≡ true → state_value case.heuristic (packed_of case.task) (sight_of (packed_of case.task).start) ≡ number_of value → IsRoot case (record { row = (packed_of case.task).start; value = value }) }
{}

/// The successor list of the state that a row stands for is the one that is made of the packed task alone: an entry for each
/// applicable action, with any row that shows what the next state does. A state leads out of the width by the action by which
/// its row does.
pub fn successors_are_ground_successors()
    ensures list { (case : Case) (row : RowLists) (entries : List Offspring) → IsResolvedTask case.task → IsRowOf (packed_of case.task) row → HasLowestValues row → AreGroundSuccessors (packed_of case.task) (sight_of row) (helpful_of case.heuristic (packed_of case.task) (sight_of row)) entries → way_out (packed_of case.task) (sight_of row) ≡ None → (space_of case).grow (meaning_of case row) ≡ Listed (map (offspring_of case) entries) }
    ensures rows { (case : Case) (row : RowLists) (entries : List Offspring) → IsResolvedTask case.task → IsRowOf (packed_of case.task) row → HasLowestValues row → AreGroundSuccessors (packed_of case.task) (sight_of row) (helpful_of case.heuristic (packed_of case.task) (sight_of row)) entries → way_out (packed_of case.task) (sight_of row) ≡ None → All (HasNarrowRow case) entries → IsListedOf case row (listed.List entries) }
    ensures wide { (case : Case) (row : RowLists) (instance : ℕ) → IsRowOf (packed_of case.task) row → way_out (packed_of case.task) (sight_of row) ≡ Some instance → IsListedOf case row (listed.Wide instance) }
{}

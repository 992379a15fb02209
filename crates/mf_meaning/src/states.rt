ghost use Rattle.std.specs.Prelude.{◌≡◌, ℕ, List};
ghost use Rattle.std.specs.List.{list_any};
ghost use Rattle.mf_model.specs.declared.state.Instance.{Instance};
ghost use Rattle.mf_model.specs.declared.state.PlainState.{PlainState};
ghost use Rattle.mf_model.specs.declared.task.TypedTask.{TypedTask};
ghost use Rattle.mf_model.specs.Application.{next_state};
ghost use Rattle.mf_model.specs.SearchStates.{search_state, with_costs};
ghost use Rattle.mf_model.specs.States.{is_atom, start_of, value_at};
ghost use Rattle.mf_meaning.specs.SortedStates.{IsSortedState};

/// The start is sorted, and each step from a sorted state leads to a sorted one; so does leaving out the terms of cost
/// functions, and putting them back.
pub fn states_stay_sorted()
    ensures start { (task : TypedTask) → IsSortedState (start_of task) }
    ensures step { (task : TypedTask) (state : PlainState) (instance : Instance) → IsSortedState state → IsSortedState (next_state task state instance) }
    ensures search_state { (task : TypedTask) (state : PlainState) → IsSortedState state → IsSortedState (search_state task state) }
    ensures with_costs { (task : TypedTask) (state : PlainState) → IsSortedState state → IsSortedState (with_costs task state) }
{}

/// Two sorted states with the same true atoms and the same values are the same.
pub fn sorted_states_are_told_apart()
    ensures { (one other : PlainState) → IsSortedState one → IsSortedState other → ((predicate : ℕ) (objects : List ℕ) → list_any (is_atom predicate objects) one.atoms ≡ list_any (is_atom predicate objects) other.atoms) → ((function : ℕ) (objects : List ℕ) → value_at one.values function objects ≡ value_at other.values function objects) → one ≡ other }
{}

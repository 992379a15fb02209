ghost use Rattle.std.specs.Prelude.{◌≡◌, ℕ, true, List};
ghost use Rattle.mf_model.specs.declared.state.Instance.{Instance};
ghost use Rattle.mf_model.specs.declared.state.PlainState.{PlainState};
ghost use Rattle.mf_model.specs.declared.task.Cond.{Cond};
ghost use Rattle.mf_model.specs.declared.task.TypedTask.{TypedTask};
ghost use Rattle.mf_model.specs.Application.{is_applicable, next_state};
ghost use Rattle.mf_model.specs.Functions.{is_cost};
ghost use Rattle.mf_model.specs.Meaning.{holds_in};
ghost use Rattle.mf_model.specs.Objects.{kinds_of};
ghost use Rattle.mf_model.specs.Plans.{is_goal};
ghost use Rattle.mf_model.specs.SearchStates.{search_state, with_costs, HasStartCosts};
ghost use Rattle.mf_model.specs.States.{look_of, start_of, value_at};
ghost use Rattle.mf_meaning.specs.ReachedStates.{IsSearchState};
ghost use Rattle.mf_meaning.specs.SearchPlans.{next_search_state, ReadsNoCost};
ghost use Rattle.mf_meaning.specs.SortedStates.{IsSortedState};

/// A condition that reads no cost function, and the goal of a task, holds in a state exactly where it holds in the search
/// state of that state.
pub fn conditions_read_search_states()
    ensures condition { (task : TypedTask) (state : PlainState) (condition : Cond) (binding : List ℕ) → ReadsNoCost task condition → holds_in (kinds_of task) (look_of state) condition binding ≡ holds_in (kinds_of task) (look_of (with_costs task (search_state task state))) condition binding }
    ensures goal { (task : TypedTask) (state : PlainState) → is_goal task state ≡ is_goal task (with_costs task (search_state task state)) }
{}

/// Whether an instance is applicable depends on the search state alone, in each state whose cost terms are defined exactly
/// where the start's are. To which search state an instance leads depends on the search state alone.
pub fn search_states_decide()
    ensures applicable { (task : TypedTask) (state : PlainState) (instance : Instance) → HasStartCosts task state → is_applicable task state instance ≡ is_applicable task (with_costs task (search_state task state)) instance }
    ensures next { (task : TypedTask) (state : PlainState) (instance : Instance) → IsSortedState state → search_state task (next_state task state instance) ≡ next_search_state task (search_state task state) instance }
{}

/// Two states with one search state: the goal holds in both or in neither, the same instances are applicable where the cost
/// terms of both are defined as at the start, and an instance leads from both to one search state.
pub fn search_states_are_enough()
    ensures goal { (task : TypedTask) (one other : PlainState) → search_state task one ≡ search_state task other → is_goal task one ≡ is_goal task other }
    ensures applicable { (task : TypedTask) (one other : PlainState) (instance : Instance) → search_state task one ≡ search_state task other → HasStartCosts task one → HasStartCosts task other → is_applicable task one instance ≡ is_applicable task other instance }
    ensures next { (task : TypedTask) (one other : PlainState) (instance : Instance) → search_state task one ≡ search_state task other → IsSortedState one → IsSortedState other → search_state task (next_state task one instance) ≡ search_state task (next_state task other instance) }
{}

/// The terms of cost functions are defined exactly where they are at the start: at the start, and after each applicable
/// instance.
pub fn costs_stay_defined()
    ensures start { (task : TypedTask) → HasStartCosts task (start_of task) }
    ensures step { (task : TypedTask) (state : PlainState) (instance : Instance) → HasStartCosts task state → is_applicable task state instance ≡ true → HasStartCosts task (next_state task state instance) }
    ensures search_state { (task : TypedTask) (state : PlainState) → HasStartCosts task (with_costs task (search_state task state)) }
{}

/// Costs that are put back are left out again, and have their start values.
pub fn search_states_keep_costs_out()
    ensures out { (task : TypedTask) (state : PlainState) → search_state task (with_costs task (search_state task state)) ≡ search_state task state }
    ensures values { (task : TypedTask) (state : PlainState) (function : ℕ) (objects : List ℕ) → is_cost task function ≡ true → value_at (with_costs task (search_state task state)).values function objects ≡ value_at (start_of task).values function objects }
{}

/// What holds of the start as a search state and of each search state to which instances lead from it.
pub fn reached_search_states()
    ensures start { (task : TypedTask) → IsSearchState task (search_state task (start_of task)) }
    ensures step { (task : TypedTask) (state : PlainState) (instance : Instance) → IsSearchState task state → IsSearchState task (next_search_state task state instance) }
{}

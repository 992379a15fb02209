ghost use Rattle.std.specs.Prelude.{◌↔◌, List};
ghost use Rattle.mf_model.specs.declared.state.Instance.{Instance};
ghost use Rattle.mf_model.specs.declared.state.PlainState.{PlainState};
ghost use Rattle.mf_model.specs.declared.task.TypedTask.{TypedTask};
ghost use Rattle.mf_model.specs.LiveInstances.{live_instances};
ghost use Rattle.mf_model.specs.Plans.{IsPlan, IsValidFrom};
ghost use Rattle.mf_model.specs.SearchStates.{search_state, HasStartCosts};
ghost use Rattle.mf_model.specs.States.{start_of};
ghost use Rattle.mf_meaning.specs.SearchPlans.{IsSearchPlanAmong, IsSearchPlanFrom};
ghost use Rattle.mf_meaning.specs.SortedStates.{IsSortedState};

/// A plan is valid exactly where it is one of the search states: from the start, and from each sorted state whose cost terms
/// are defined exactly where the start's are.
pub fn plans_are_search_plans()
    ensures start { (task : TypedTask) (steps : List Instance) → (IsPlan task steps ↔ IsSearchPlanFrom task (search_state task (start_of task)) steps) }
    ensures from { (task : TypedTask) (state : PlainState) (steps : List Instance) → IsSortedState state → HasStartCosts task state → (IsValidFrom task state steps ↔ IsSearchPlanFrom task (search_state task state) steps) }
{}

/// A plan is valid exactly where it is one of the search states that takes live instances alone.
pub fn plans_are_live_search_plans()
    ensures { (task : TypedTask) (steps : List Instance) → (IsPlan task steps ↔ IsSearchPlanAmong task (live_instances task) (search_state task (start_of task)) steps) }
{}

ghost use Rattle.std.specs.Prelude.{◌≡◌, ℕ, true, List, Some, map, slice_get};
ghost use Rattle.mf_model.specs.declared.state.Instance.{Instance};
ghost use Rattle.mf_model.specs.declared.state.PlainState.{PlainState};
ghost use Rattle.mf_model.specs.LiveInstances.{live_instances};
ghost use Rattle.mf_model.specs.Plans.{IsPlan, is_goal};
ghost use Rattle.mf_model.specs.SearchStates.{with_costs};
ghost use Rattle.mf_search.specs.Answers.{Walk};
ghost use Rattle.mf_task.specs.Successors.{Case, space_of, start_in};

/// The live instances whose numbers lead from the start of a case to a state in which the goal holds are a valid plan.
pub fn traces_are_plans()
    ensures { (case : Case) (numbers : List ℕ) (state : PlainState) (steps : List Instance) → Walk (space_of case) (start_in case) numbers state → is_goal case.task (with_costs case.task state) ≡ true → map Some steps ≡ map (slice_get (live_instances case.task)) numbers → IsPlan case.task steps }
{}

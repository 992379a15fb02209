ghost use Rattle.std.specs.Prelude.{◌≡◌, Contains};
ghost use Rattle.mf_model.specs.declared.state.PlainState.{PlainState};
ghost use Rattle.mf_model.specs.declared.task.TypedTask.{TypedTask};
ghost use Rattle.mf_model.specs.Application.{is_applicable};
ghost use Rattle.mf_model.specs.LiveInstances.{live_instances};
ghost use Rattle.mf_model.specs.ResolvedTask.{IsResolvedTask};
ghost use Rattle.mf_model.specs.SearchStates.{HasStartCosts};
ghost use Rattle.mf_model.specs.States.{look_of};
ghost use Rattle.mf_task.specs.declared.ground.GroundAction.{GroundAction};
ghost use Rattle.mf_task.specs.GroundMeaning.{is_ground_applicable};
ghost use Rattle.mf_task.specs.Grounding.{ground_of, numbering_of};
ghost use Rattle.mf_task.specs.Rows.{Sight};
ghost use Rattle.mf_bridge.specs.Shows.{Shows};
ghost use Rattle.mf_bridge.specs.UnlistedAtoms.{HidesUnlistedAtoms};

/// An action of the packed task is applicable in a row exactly where its instance is in a state that shows the same, and
/// whose cost terms are defined exactly where the start's are.
pub fn actions_are_applicable_alike()
    ensures { (task : TypedTask) (state : PlainState) (sight : Sight) → IsResolvedTask task → Shows (numbering_of task (live_instances task)) (look_of state) sight → HidesUnlistedAtoms (numbering_of task (live_instances task)) sight → HasStartCosts task state → (action : GroundAction) → Contains (ground_of task (live_instances task)).actions action → is_applicable task state action.instance ≡ is_ground_applicable (ground_of task (live_instances task)) sight action }
{}

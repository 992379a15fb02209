ghost use Rattle.std.specs.Prelude.{◌≡◌, ℕ, List, map, slice_get, Contains, Some};
ghost use Rattle.std.specs.List.{flat_map};
ghost use Rattle.mf_model.specs.declared.state.Instance.{Instance};
ghost use Rattle.mf_model.specs.declared.task.Action.{Action};
ghost use Rattle.mf_model.specs.declared.task.Effect.{Effect};
ghost use Rattle.mf_model.specs.declared.task.TypedTask.{TypedTask};
ghost use Rattle.mf_model.specs.Application.{firing_of};
ghost use Rattle.mf_model.specs.Objects.{kinds_of};
ghost use Rattle.mf_model.specs.ResolvedTask.{IsResolvedTask};
ghost use Rattle.mf_model.specs.Views.{Look};
ghost use Rattle.mf_task.specs.declared.ground.GroundAction.{GroundAction};
ghost use Rattle.mf_task.specs.GroundMeaning.{action_firing, ground_firing};
ghost use Rattle.mf_task.specs.Grounding.{effect_forms, functions_in, ground_effects, ground_of, numbering_of};
ghost use Rattle.mf_task.specs.Rows.{Sight};
ghost use Rattle.mf_bridge.specs.Deeds.{deed_of, ground_deeds};
ghost use Rattle.mf_bridge.specs.ListedForms.{AreListed};
ghost use Rattle.mf_bridge.specs.Readable.{IsReadableEffect};
ghost use Rattle.mf_bridge.specs.Shows.{Shows};
ghost use Rattle.mf_bridge.specs.UnlistedAtoms.{HidesUnlistedAtoms};

/// The ground changes that fire do, one by one and in order, what the typed changes do that fire.
pub fn effects_fire_alike()
    ensures { (task : TypedTask) (instances : List Instance) (look : Look) (sight : Sight) → Shows (numbering_of task instances) look sight → HidesUnlistedAtoms (numbering_of task instances) sight → (effect : Effect) → IsReadableEffect task effect → (binding : List ℕ) → AreListed (numbering_of task instances).forms (effect_forms (kinds_of task) (functions_in (numbering_of task instances)) effect binding) → map (deed_of (numbering_of task instances)) (firing_of (kinds_of task) look effect binding) ≡ flat_map (ground_deeds (ground_of task instances) sight) (ground_firing (ground_of task instances) sight (ground_effects (numbering_of task instances) effect binding)) }
{}

/// So do those of each action of a resolved task.
pub fn actions_fire_alike()
    ensures { (task : TypedTask) (instances : List Instance) (look : Look) (sight : Sight) → IsResolvedTask task → Shows (numbering_of task instances) look sight → HidesUnlistedAtoms (numbering_of task instances) sight → (action : GroundAction) (typed : Action) → Contains (ground_of task instances).actions action → slice_get task.actions action.instance.action ≡ Some typed → map (deed_of (numbering_of task instances)) (firing_of (kinds_of task) look typed.effect action.instance.objects) ≡ flat_map (ground_deeds (ground_of task instances) sight) (action_firing (ground_of task instances) sight action) }
{}

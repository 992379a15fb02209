ghost use Rattle.std.specs.Prelude.{◌≡◌, ℕ, List, [], map, slice_get, Contains, Some};
ghost use Rattle.mf_model.specs.declared.state.Instance.{Instance};
ghost use Rattle.mf_model.specs.declared.task.Action.{Action};
ghost use Rattle.mf_model.specs.declared.task.Cond.{Cond};
ghost use Rattle.mf_model.specs.declared.task.TypedTask.{TypedTask};
ghost use Rattle.mf_model.specs.LiveInstances.{live_instances};
ghost use Rattle.mf_model.specs.Meaning.{holds_in, truth_in};
ghost use Rattle.mf_model.specs.Objects.{kinds_of};
ghost use Rattle.mf_model.specs.ResolvedTask.{IsResolvedTask};
ghost use Rattle.mf_model.specs.Views.{Look};
ghost use Rattle.mf_task.specs.declared.form.Form.{Form};
ghost use Rattle.mf_task.specs.declared.ground.GroundAction.{GroundAction};
ghost use Rattle.mf_task.specs.GroundMeaning.{form_at, ground_truth, is_ground_goal};
ghost use Rattle.mf_task.specs.Grounding.{condition_forms, effect_forms, form_number, functions_in, ground_cond, ground_of, numbering_of};
ghost use Rattle.mf_task.specs.Rows.{Sight};
ghost use Rattle.mf_bridge.specs.ListedForms.{AreListed, IsListed};
ghost use Rattle.mf_bridge.specs.Readable.{IsReadableCondition};
ghost use Rattle.mf_bridge.specs.Shows.{Shows};
ghost use Rattle.mf_bridge.specs.UnlistedAtoms.{HidesUnlistedAtoms};

/// The packed task has an action for each live instance, in their order.
pub fn actions_are_live_instances()
    ensures { (task : TypedTask) → map (λ action. action.instance) (ground_of task (live_instances task)).actions ≡ live_instances task }
{}

/// A form that is listed is that of its number, and each form that occurs in the goal, or in the action of an instance, is
/// listed.
pub fn forms_are_listed()
    ensures number { (task : TypedTask) (instances : List Instance) (form : Form) → IsListed (ground_of task instances).forms form → form_at (ground_of task instances) (form_number (ground_of task instances).forms form) ≡ form }
    ensures goal { (task : TypedTask) (instances : List Instance) → AreListed (ground_of task instances).forms (condition_forms (kinds_of task) (functions_in (numbering_of task instances)) task.goal []) }
    ensures condition { (task : TypedTask) (instances : List Instance) (instance : Instance) (action : Action) → Contains instances instance → slice_get task.actions instance.action ≡ Some action → AreListed (ground_of task instances).forms (condition_forms (kinds_of task) (functions_in (numbering_of task instances)) action.condition instance.objects) }
    ensures effect { (task : TypedTask) (instances : List Instance) (instance : Instance) (action : Action) → Contains instances instance → slice_get task.actions instance.action ≡ Some action → AreListed (ground_of task instances).forms (effect_forms (kinds_of task) (functions_in (numbering_of task instances)) action.effect instance.objects) }
{}

/// A condition whose forms are listed holds in a state, fails or does neither exactly where its ground condition does in a
/// row that shows the same.
pub fn conditions_are_ground_conditions()
    ensures { (task : TypedTask) (instances : List Instance) (look : Look) (sight : Sight) → Shows (numbering_of task instances) look sight → HidesUnlistedAtoms (numbering_of task instances) sight → (condition : Cond) → IsReadableCondition task condition → (binding : List ℕ) → AreListed (numbering_of task instances).forms (condition_forms (kinds_of task) (functions_in (numbering_of task instances)) condition binding) → truth_in (kinds_of task) look condition binding ≡ ground_truth (ground_of task instances) sight (ground_cond (numbering_of task instances) condition binding) }
{}

/// So does the precondition of each action of a resolved task.
pub fn preconditions_are_ground_conditions()
    ensures { (task : TypedTask) (instances : List Instance) (look : Look) (sight : Sight) → IsResolvedTask task → Shows (numbering_of task instances) look sight → HidesUnlistedAtoms (numbering_of task instances) sight → (action : GroundAction) (typed : Action) → Contains (ground_of task instances).actions action → slice_get task.actions action.instance.action ≡ Some typed → truth_in (kinds_of task) look typed.condition action.instance.objects ≡ ground_truth (ground_of task instances) sight action.condition }
{}

/// The goal of a resolved task holds exactly where each conjunct of the packed task's goal does.
pub fn goals_are_ground_goals()
    ensures { (task : TypedTask) (instances : List Instance) (look : Look) (sight : Sight) → IsResolvedTask task → Shows (numbering_of task instances) look sight → HidesUnlistedAtoms (numbering_of task instances) sight → holds_in (kinds_of task) look task.goal [] ≡ is_ground_goal (ground_of task instances) sight }
{}

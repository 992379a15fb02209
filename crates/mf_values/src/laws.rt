ghost use Rattle.std.specs.Prelude.{◌≡◌, ◌↔◌, true, Some};
ghost use Rattle.mf_task.specs.NumberedTasks.{HasProperForms, is_numbered};
ghost use Rattle.mf_task.specs.declared.task.Task.{Task};
ghost use Rattle.mf_task.specs.declared.value.HeuristicKind.{HeuristicKind};
ghost use Rattle.mf_task.specs.GroundMeaning.{is_ground_goal};
ghost use Rattle.mf_task.specs.HeuristicValues.{state_value};
ghost use Rattle.mf_task.specs.Rows.{Sight};
ghost use Rattle.mf_task.specs.Width.{is_narrow};
ghost use Rattle.mf_values.specs.Fitting.{HasFittingConstants, IsStoredSight};

/// The value of a narrow state is 0 exactly where the goal holds there, with either heuristic.
pub fn values_are_zero_at_goals()
    ensures { (kind : HeuristicKind) (task : Task) (sight : Sight) → is_numbered task ≡ true → HasProperForms task → HasFittingConstants task → IsStoredSight sight → is_narrow task sight ≡ true → (state_value kind task sight ≡ Some 0) ↔ (is_ground_goal task sight ≡ true) }
{}

ghost use Rattle.mf_limit.specs.GroundRuns.{IsGroundRun, end_of_run};
ghost use Rattle.mf_task.specs.NumberedTasks.{HasProperForms, IsProperSight, is_numbered};
ghost use Rattle.mf_task.specs.declared.ground.GroundAction.{GroundAction};
ghost use Rattle.mf_task.specs.declared.task.Task.{Task};
ghost use Rattle.mf_task.specs.GroundMeaning.{is_ground_goal};
ghost use Rattle.mf_task.specs.LimitClosure.{Family, IsClosed, IsWithin, is_dead, limit_closure};
ghost use Rattle.mf_task.specs.Rows.{Sight};
ghost use Rattle.std.specs.Prelude.{◌≡◌, true, false, List};

/// No list of applicable actions leads from a dead sight to one where the goal holds. The task's effects change atoms and
/// terms of the task, and all numbers are in lowest terms.
pub fn dead_states_reach_no_goal()
    ensures { (task : Task) (sight : Sight) (actions : List GroundAction) → is_numbered task ≡ true → HasProperForms task → IsProperSight sight → is_dead task sight ≡ true → IsGroundRun task sight actions → is_ground_goal task (end_of_run task sight actions) ≡ false }
{}

/// The limit closure has what is so at the sight, one more round adds nothing to it, and each family of which this holds
/// contains it.
pub fn limit_closure_is_the_least_closed_family()
    ensures closed { (task : Task) (sight : Sight) → is_numbered task ≡ true → IsClosed task sight (limit_closure task sight) }
    ensures least { (task : Task) (sight : Sight) (family : Family) → IsClosed task sight family → IsWithin (limit_closure task sight) family }
{}

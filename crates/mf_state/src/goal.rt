ghost use Rattle.mf_task.specs.GroundMeaning.{is_ground_goal};
ghost use Rattle.mf_task.specs.Rows.{sight_of};
ghost use Rattle.mf_task.specs.Width.{is_narrow};
ghost use Rattle.std.specs.Prelude.{◌≡◌, true};

use crate::conditions::holds;
use mf_task::{Row, Task};

/// Whether the goal holds at the row, at which no comparison is wide.
pub fn is_goal(task: &Task, row: &Row) -> bool
    requires { is_narrow task.now (sight_of row.now) ≡ true }
    ensures { result ≡ is_ground_goal task.now (sight_of row.now) }
{
    for condition in task.goal.as_slice() {
        if !holds(task, row, condition) {
            return false;
        }
    }
    true
}

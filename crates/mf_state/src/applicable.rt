ghost use Rattle.mf_state.specs.PackedTasks.{is_sound_action};
ghost use Rattle.mf_task.specs.GroundMeaning as spec;
ghost use Rattle.mf_task.specs.Rows.{sight_of};
ghost use Rattle.mf_task.specs.Width.{is_wide_action};
ghost use Rattle.std.specs.Prelude.{◌≡◌, false, true};

use crate::changes::{are_apart, are_defined};
use crate::conditions::holds;
use mf_task::{GroundAction, Row, Task};

// Whether the action's precondition holds, and its effects that fire read only defined values and agree on each term.
pub(crate) fn is_applicable(task: &Task, row: &Row, action: &GroundAction) -> bool
    requires narrow { is_wide_action task.now (sight_of row.now) action.now ≡ false }
    requires sound { is_sound_action task.now action.now ≡ true }
    ensures { result ≡ spec.is_ground_applicable task.now (sight_of row.now) action.now }
{
    let effects = action.effects.as_slice();
    holds(task, row, &action.condition)
        && are_defined(task, row, effects)
        && are_apart(task, row, effects)
}

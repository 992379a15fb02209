ghost use Rattle.mf_state.specs.Outcomes.{Starts};
ghost use Rattle.mf_task.specs.Rows.{sight_of};
ghost use Rattle.mf_task.specs.Width.{is_narrow};
ghost use Rattle.std.specs.Prelude.{◌≡◌, ◌≤◌, IfOk, length, true};

use crate::fault::StartFault;
use crate::width::wide_place;
use mf_task::{Memory, Row, Task};
use std::alloc::Global;

/// The start's row, at which no comparison is wide, or the first place that is wide at the start: the goal, else the least
/// live instance.
pub fn start(alloc: Global, task: &Task) -> Result<Row, StartFault>
    requires { length task.now.actions ≤ 1000000 }
    ensures outcome { Starts task.now result }
    ensures narrow { IfOk result (λ row. is_narrow task.now (sight_of row) ≡ true) }
{
    if let Some(place) = wide_place(task, &task.start) {
        return Err(StartFault::Wide { place });
    }
    match task.start.copy(alloc) {
        Ok(row) => Ok(row),
        Err(Memory) => Err(StartFault::Memory),
    }
}

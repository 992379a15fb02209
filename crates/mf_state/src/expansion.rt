ghost use Rattle.mf_state.specs.NextRows.{Adds, Steps};
ghost use Rattle.mf_state.specs.PackedTasks.{IsPackedTask, is_sound_action};
ghost use Rattle.mf_task.specs.Rows.{IsRowOf, sight_of};
ghost use Rattle.mf_task.specs.Width.{is_narrow, is_wide_action};
ghost use Rattle.std.specs.Prelude.{◌≡◌, ◌≤◌, ◌++◌, ◌∷◌, [], IfErr, OnOk, false, length, true};
ghost use Rattle.mf_state.specs.declared.fault.StepFault.TheVariants as fault_of;

use crate::applicable::is_applicable;
use crate::fault::StepFault;
use crate::next_row::next_row;
use mf_model::List;
use mf_task::{GroundAction, Row, Task};
use std::alloc::Global;

/// A row to which a live instance leads, with the number of the instance.
#[derive(Debug, Drop)]
pub struct Next {
    pub instance: u32,
    pub row: Row,
}

/// The applicable live instances in order, each with the row to which it leads, or the least one that leads out of the
/// width. The row is one of the task's shape, at which no comparison is wide.
pub fn successors(alloc: Global, task: &Task, row: &Row) -> Result<List<Next>, StepFault>
    requires packed { IsPackedTask task.now }
    requires shape { IsRowOf task.now row.now }
    requires narrow { is_narrow task.now (sight_of row.now) ≡ true }
    ensures { Steps task.now (sight_of row.now) result }
{
    let mut list = List::new(alloc);
    for (number, action) in task.actions.as_slice().iter().enumerate() {
        match add_next(alloc, task, row, action, number as u32, &mut list) {
            Ok(()) => {}
            Err(fault) => return Err(fault),
        }
    }
    Ok(list)
}

// Adds the row to which the action leads, if it is applicable.
fn add_next(
    alloc: Global,
    task: &Task,
    row: &Row,
    action: &GroundAction,
    instance: u32,
    list: &mut List<Next>,
) -> Result<(), StepFault>
    requires few { length task.now.actions ≤ 1000000 }
    requires shape { IsRowOf task.now row.now }
    requires narrow { is_narrow task.now (sight_of row.now) ≡ true }
    requires action { is_wide_action task.now (sight_of row.now) action.now ≡ false }
    requires sound { is_sound_action task.now action.now ≡ true }
    ensures { Adds task.now (sight_of row.now) action.now instance list.old list.new result }
{
    if !is_applicable(task, row, action) {
        return Ok(());
    }
    match next_row(alloc, task, row, action, instance) {
        Ok(row) => push_next(list, instance, row),
        Err(fault) => Err(fault),
    }
}

fn push_next(list: &mut List<Next>, instance: u32, row: Row) -> Result<(), StepFault>
    ensures ok { OnOk result (list.new ≡ list.old ++ (record { instance = instance; row = row }) ∷ []) }
    ensures err { IfErr result (λ fault. fault ≡ fault_of.Memory) }
{
    list.push(Next { instance, row })?;
    Ok(())
}

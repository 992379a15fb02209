ghost use Rattle.mf_task.specs.NumberedTasks.{is_numbered};
ghost use Rattle.mf_task.specs.LimitClosure.{is_dead};
ghost use Rattle.mf_task.specs.Rows.{IsRowOf, sight_of};
ghost use Rattle.std.specs.Prelude.{◌≡◌, IfOk, true};

use crate::condition::may_all_hold;
use crate::repetition::limit_sets;
use crate::scene::Scene;
use mf_task::{Memory, Row, Task};
use std::alloc::Global;

/// Whether the row is a dead end: whether the goal may not hold in its limit closure. The row has the task's shape, and
/// the task's effects change atoms and terms of the task. A form beyond the task's forms counts as the constant 0, an
/// atom beyond its atoms as always false, and a term beyond its terms as undefined.
///
/// It takes memory once, for what may become of each atom and each term. There are at most two rounds for each atom, three
/// for each term, and one, and a round looks once at each node of the task's conditions and effects.
pub fn dead(alloc: Global, task: &Task, row: &Row) -> Result<bool, Memory>
    requires shape { IsRowOf task.now row.now }
    requires numbered { is_numbered task.now ≡ true }
    ensures { IfOk result (λ dead. dead ≡ is_dead task.now (sight_of row.now)) }
{
    let scene = Scene { task, row };
    let sets = limit_sets(alloc, &scene)?;
    Ok(!may_all_hold(&scene, &sets, task.goal.as_slice()))
}

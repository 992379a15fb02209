ghost use Rattle.mf_task.specs.GroundMeaning.{form_at};
ghost use Rattle.mf_task.specs.Rows.{sight_of};
ghost use Rattle.mf_task.specs.Width as spec;
ghost use Rattle.std.specs.List.{list_any};
ghost use Rattle.std.specs.Prelude.{◌≡◌, ◌≤◌, length};

use crate::forms::numbered_value;
use mf_task::{GroundAction, GroundCond, GroundEffect, Place, Row, Task};

/// Where the row is wide: the goal, else the least live instance.
pub(crate) fn wide_place(task: &Task, row: &Row) -> Option<Place>
    requires { length task.now.actions ≤ 1000000 }
    ensures { result ≡ spec.wide_place task.now (sight_of row.now) }
{
    if is_some_wide(task, row, task.goal.as_slice()) {
        return Some(Place::Goal);
    }
    for (number, action) in task.actions.as_slice().iter().enumerate() {
        if is_action_wide(task, row, action) {
            return Some(Place::Action(number as u32));
        }
    }
    None
}

fn is_action_wide(task: &Task, row: &Row, action: &GroundAction) -> bool
    ensures { result ≡ spec.is_wide_action task.now (sight_of row.now) action.now }
{
    is_wide(task, row, &action.condition) || is_effect_wide(task, row, action.effects.as_slice())
}

// Of the condition of some effect.
fn is_effect_wide(task: &Task, row: &Row, effects: &[GroundEffect]) -> bool
    ensures { result ≡ list_any (λ effect. spec.is_wide_cond task.now (sight_of row.now) effect.condition) effects.now }
{
    for effect in effects {
        if is_wide(task, row, &effect.condition) {
            return true;
        }
    }
    false
}

// Whether the form of some comparison of the condition is wide.
#[cycle(is_wide)]
fn is_wide(task: &Task, row: &Row, condition: &GroundCond) -> bool
    ensures { result ≡ spec.is_wide_cond task.now (sight_of row.now) condition.now }
{
    match condition {
        GroundCond::Fact { holds: _ } => false,
        GroundCond::Neither => false,
        GroundCond::Atom { atom: _ } => false,
        GroundCond::Compare { relation: _, form } => is_form_wide(task, row, *form),
        GroundCond::Not { part } => is_wide(task, row, part.get()),
        GroundCond::And { parts } => is_some_wide(task, row, parts.as_slice()),
        GroundCond::Or { parts } => is_some_wide(task, row, parts.as_slice()),
    }
}

#[cycle(is_wide)]
fn is_some_wide(task: &Task, row: &Row, parts: &[GroundCond]) -> bool
    ensures { result ≡ list_any (spec.is_wide_cond task.now (sight_of row.now)) parts.now }
{
    for part in parts {
        if is_wide(task, row, part) {
            return true;
        }
    }
    false
}

fn is_form_wide(task: &Task, row: &Row, form: u32) -> bool
    ensures { result ≡ spec.is_wide_at (sight_of row.now).value (form_at task.now form) }
{
    numbered_value(task, row, form).is_err()
}

ghost use Rattle.mf_state.specs.PackedTasks.{are_sound_effects, has_constant_divisor, is_sound_change};
ghost use Rattle.mf_task.specs.GroundMeaning as spec;
ghost use Rattle.mf_task.specs.Rows.{sight_of};
ghost use Rattle.mf_task.specs.Width.{is_wide_cond, is_wide_optional};
ghost use Rattle.std.specs.List.{list_all, list_any};
ghost use Rattle.std.specs.Prelude.{◌≡◌, ◌&&◌, ◌||◌, IfErr, IfOk, false, filter, is_err, is_some, length, not, true};
ghost use Rattle.mf_model.specs.Application as application;

use crate::conditions::holds;
use crate::forms::numbered_value;
use crate::operation::{divides_by_zero, is_sum, reads_old};
use crate::reading::value_of;
use mf_fraction::{Frac, Wide};
use mf_model::Op;
use mf_task::{GroundChange, GroundEffect, Row, Task};

// Whether each effect that fires reads only defined values.
pub(crate) fn are_defined(task: &Task, row: &Row, effects: &[GroundEffect]) -> bool
    requires narrow { list_any (λ effect. is_wide_cond task.now (sight_of row.now) effect.condition) effects.now ≡ false }
    requires sound { are_sound_effects task.now effects.now ≡ true }
    ensures { result ≡ list_all (spec.is_ground_defined task.now (sight_of row.now)) (spec.ground_firing task.now (sight_of row.now) effects.now) }
{
    for effect in effects {
        if holds(task, row, &effect.condition) && !is_defined(task, row, &effect.change) {
            return false;
        }
    }
    true
}

fn is_defined(task: &Task, row: &Row, change: &GroundChange) -> bool
    requires { is_sound_change task.now change.now ≡ true }
    ensures { result ≡ spec.is_ground_defined task.now (sight_of row.now) change.now }
{
    match change {
        GroundChange::Add { atom: _ } => true,
        GroundChange::Delete { atom: _ } => true,
        GroundChange::Number { op, term, value } => {
            is_number_defined(task, row, *op, *term, *value)
        }
        GroundChange::Cost { value } => has_right_side(task, row, *value),
        GroundChange::Nothing => true,
    }
}

fn is_number_defined(task: &Task, row: &Row, op: Op, term: u32, value: Option<u32>) -> bool
    requires { has_constant_divisor task.now op value ≡ true }
    ensures { result ≡ (is_some (spec.right_side task.now (sight_of row.now) value)
        && not (application.divides_by_zero op (spec.right_side task.now (sight_of row.now) value))
        && (not (application.reads_old op) || is_some ((sight_of row.now).value term))) }
{
    let is_readable = !reads_old(op) || value_of(row, term).is_some();
    match right_side(task, row, value) {
        Ok(Some(value)) => !divides_by_zero(op, value) && is_readable,
        Ok(None) => false,
        Err(Wide) => is_readable,
    }
}

// Whether the right side is defined, wide or not.
fn has_right_side(task: &Task, row: &Row, value: Option<u32>) -> bool
    ensures { result ≡ is_some (spec.right_side task.now (sight_of row.now) value) }
{
    match right_side(task, row, value) {
        Ok(value) => value.is_some(),
        Err(Wide) => true,
    }
}

// The value of a right side at the row, if it is defined. One that is wide is defined.
pub(crate) fn right_side(task: &Task, row: &Row, value: Option<u32>) -> Result<Option<Frac>, Wide>
    ensures width { is_err result ≡ is_wide_optional task.now (sight_of row.now) value }
    ensures exact { IfOk result (λ number. number ≡ spec.right_side task.now (sight_of row.now) value) }
    ensures wide { IfErr result (λ fault. is_some (spec.right_side task.now (sight_of row.now) value) ≡ true) }
{
    match value {
        Some(number) => numbered_value(task, row, number),
        None => Ok(None),
    }
}

// Whether, for each term, the changes that fire are increases and decreases alone, or exactly one.
pub(crate) fn are_apart(task: &Task, row: &Row, effects: &[GroundEffect]) -> bool
    requires narrow { list_any (λ effect. is_wide_cond task.now (sight_of row.now) effect.condition) effects.now ≡ false }
    ensures { result ≡ list_all (spec.is_ground_apart (spec.ground_firing task.now (sight_of row.now) effects.now)) (spec.ground_firing task.now (sight_of row.now) effects.now) }
{
    for effect in effects {
        if holds(task, row, &effect.condition) && !is_apart(task, row, effects, &effect.change) {
            return false;
        }
    }
    true
}

fn is_apart(task: &Task, row: &Row, effects: &[GroundEffect], change: &GroundChange) -> bool
    requires narrow { list_any (λ effect. is_wide_cond task.now (sight_of row.now) effect.condition) effects.now ≡ false }
    ensures { result ≡ spec.is_ground_apart (spec.ground_firing task.now (sight_of row.now) effects.now) change.now }
{
    match change {
        GroundChange::Add { atom: _ } => true,
        GroundChange::Delete { atom: _ } => true,
        GroundChange::Number {
            op: _,
            term,
            value: _,
        } => {
            are_sums(task, row, effects, *term) || number_of_changes(task, row, effects, *term) == 1
        }
        GroundChange::Cost { value: _ } => true,
        GroundChange::Nothing => true,
    }
}

// Whether the changes of the term that fire are increases and decreases alone.
fn are_sums(task: &Task, row: &Row, effects: &[GroundEffect], term: u32) -> bool
    requires narrow { list_any (λ effect. is_wide_cond task.now (sight_of row.now) effect.condition) effects.now ≡ false }
    ensures { result ≡ list_all spec.is_ground_sum (filter (spec.changes_term term) (spec.ground_firing task.now (sight_of row.now) effects.now)) }
{
    for effect in effects {
        if changes_term(term, &effect.change)
            && holds(task, row, &effect.condition)
            && !is_sum_change(&effect.change)
        {
            return false;
        }
    }
    true
}

// How many changes of the term fire.
fn number_of_changes(task: &Task, row: &Row, effects: &[GroundEffect], term: u32) -> usize
    requires narrow { list_any (λ effect. is_wide_cond task.now (sight_of row.now) effect.condition) effects.now ≡ false }
    ensures { result ≡ length (filter (spec.changes_term term) (spec.ground_firing task.now (sight_of row.now) effects.now)) }
{
    let mut count = 0;
    for effect in effects {
        if changes_term(term, &effect.change) && holds(task, row, &effect.condition) {
            count += 1;
        }
    }
    count
}

fn changes_term(term: u32, change: &GroundChange) -> bool
    ensures { result ≡ spec.changes_term term change.now }
{
    match change {
        GroundChange::Add { atom: _ } => false,
        GroundChange::Delete { atom: _ } => false,
        GroundChange::Number {
            op: _,
            term: changed,
            value: _,
        } => term == *changed,
        GroundChange::Cost { value: _ } => false,
        GroundChange::Nothing => false,
    }
}

fn is_sum_change(change: &GroundChange) -> bool
    ensures { result ≡ spec.is_ground_sum change.now }
{
    match change {
        GroundChange::Add { atom: _ } => true,
        GroundChange::Delete { atom: _ } => true,
        GroundChange::Number {
            op,
            term: _,
            value: _,
        } => is_sum(*op),
        GroundChange::Cost { value: _ } => true,
        GroundChange::Nothing => true,
    }
}

ghost use Rattle.mf_state.specs.Changing.{added_by, changed_value, deleted_by, is_change_wide, values_in};
ghost use Rattle.mf_state.specs.NextRows.{IsStep};
ghost use Rattle.mf_state.specs.PackedTasks.{are_sound_effects, is_sound_action, is_sound_change};
ghost use Rattle.mf_store.specs.Rows.{bit_in};
ghost use Rattle.mf_task.specs.GroundMeaning.{adds_atom, deletes_atom, ground_firing};
ghost use Rattle.mf_task.specs.Rows.{IsRowOf, sight_of};
ghost use Rattle.mf_task.specs.Width.{is_narrow, is_wide_action, is_wide_cond};
ghost use Rattle.mf_task.specs.declared.ground.GroundChange.TheVariants as change;
ghost use Rattle.std.specs.List.{list_any};
ghost use Rattle.std.specs.Prelude.{◌≡◌, ◌≤◌, ◌<◌, ◌&&◌, ◌||◌, ◌∷◌, [], IfOk, ℕ, false, is_err, length, not, true};

use crate::changes::right_side;
use crate::conditions::holds;
use crate::fault::StepFault;
use crate::narrow::stays_narrow;
use crate::operation::new_value;
use crate::reading::value_of;
use mf_fraction::Wide;
use mf_model::Op;
use mf_task::{GroundAction, GroundChange, GroundEffect, Memory, Row, Task};
use std::alloc::Global;

// The row to which an applicable action leads, or `Wide` where it leads out of the width.
pub(crate) fn next_row(
    alloc: Global,
    task: &Task,
    row: &Row,
    action: &GroundAction,
    instance: u32,
) -> Result<Row, StepFault>
    requires few { length task.now.actions ≤ 1000000 }
    requires shape { IsRowOf task.now row.now }
    requires narrow { is_narrow task.now (sight_of row.now) ≡ true }
    requires action { is_wide_action task.now (sight_of row.now) action.now ≡ false }
    requires sound { is_sound_action task.now action.now ≡ true }
    ensures { IsStep task.now (sight_of row.now) action.now instance result }
{
    let mut next = match row.copy(alloc) {
        Ok(next) => next,
        Err(Memory) => return Err(StepFault::Memory),
    };
    let effects = action.effects.as_slice();
    delete_atoms(task, row, effects, &mut next);
    add_atoms(task, row, effects, &mut next);
    match change_values(task, row, effects, &mut next) {
        Ok(()) => {}
        Err(Wide) => return Err(StepFault::Wide { instance }),
    }
    if !stays_narrow(task, row, &next) {
        return Err(StepFault::Wide { instance });
    }
    Ok(next)
}

// Unsets the atoms that the effects which fire delete.
fn delete_atoms(task: &Task, row: &Row, effects: &[GroundEffect], next: &mut Row)
    requires shape { IsRowOf task.now next.old }
    requires narrow { list_any (λ effect. is_wide_cond task.now (sight_of row.now) effect.condition) effects.now ≡ false }
    requires sound { are_sound_effects task.now effects.now ≡ true }
    ensures shape { IsRowOf task.now next.new }
    ensures bits { (atom : ℕ) → bit_in next.new.bits atom ≡ (bit_in next.old.bits atom && not (list_any (deletes_atom atom) (ground_firing task.now (sight_of row.now) effects.now))) }
    ensures values { next.new.values ≡ next.old.values }
{
    for effect in effects {
        delete_atom(task, row, effect, next);
    }
}

fn delete_atom(task: &Task, row: &Row, effect: &GroundEffect, next: &mut Row)
    requires shape { IsRowOf task.now next.old }
    requires narrow { is_wide_cond task.now (sight_of row.now) effect.now.condition ≡ false }
    requires sound { is_sound_change task.now effect.now.change ≡ true }
    ensures shape { IsRowOf task.now next.new }
    ensures bits { (atom : ℕ) → bit_in next.new.bits atom ≡ (bit_in next.old.bits atom && not (list_any (deletes_atom atom) (ground_firing task.now (sight_of row.now) (effect.now ∷ [])))) }
    ensures values { next.new.values ≡ next.old.values }
{
    if let Some(atom) = deleted_atom(&effect.change) {
        if holds(task, row, &effect.condition) {
            next.set_bit(atom as usize, false);
        }
    }
}

fn deleted_atom(change: &GroundChange) -> Option<u32>
    ensures { result ≡ deleted_by change.now }
{
    match change {
        GroundChange::Delete { atom } => Some(*atom),
        _ => None,
    }
}

// Sets the atoms that the effects which fire add.
fn add_atoms(task: &Task, row: &Row, effects: &[GroundEffect], next: &mut Row)
    requires shape { IsRowOf task.now next.old }
    requires narrow { list_any (λ effect. is_wide_cond task.now (sight_of row.now) effect.condition) effects.now ≡ false }
    requires sound { are_sound_effects task.now effects.now ≡ true }
    ensures shape { IsRowOf task.now next.new }
    ensures bits { (atom : ℕ) → bit_in next.new.bits atom ≡ (list_any (adds_atom atom) (ground_firing task.now (sight_of row.now) effects.now) || bit_in next.old.bits atom) }
    ensures values { next.new.values ≡ next.old.values }
{
    for effect in effects {
        add_atom(task, row, effect, next);
    }
}

fn add_atom(task: &Task, row: &Row, effect: &GroundEffect, next: &mut Row)
    requires shape { IsRowOf task.now next.old }
    requires narrow { is_wide_cond task.now (sight_of row.now) effect.now.condition ≡ false }
    requires sound { is_sound_change task.now effect.now.change ≡ true }
    ensures shape { IsRowOf task.now next.new }
    ensures bits { (atom : ℕ) → bit_in next.new.bits atom ≡ (list_any (adds_atom atom) (ground_firing task.now (sight_of row.now) (effect.now ∷ [])) || bit_in next.old.bits atom) }
    ensures values { next.new.values ≡ next.old.values }
{
    if let Some(atom) = added_atom(&effect.change) {
        if holds(task, row, &effect.condition) {
            next.set_bit(atom as usize, true);
        }
    }
}

fn added_atom(change: &GroundChange) -> Option<u32>
    ensures { result ≡ added_by change.now }
{
    match change {
        GroundChange::Add { atom } => Some(*atom),
        _ => None,
    }
}

// Changes the values of the terms that the effects which fire change, in order, by right sides at the old row. `Wide`
// comes exactly where a right side is wide or a partial new value does not fit.
fn change_values(
    task: &Task,
    row: &Row,
    effects: &[GroundEffect],
    next: &mut Row,
) -> Result<(), Wide>
    requires shape { IsRowOf task.now next.old }
    requires narrow { list_any (λ effect. is_wide_cond task.now (sight_of row.now) effect.condition) effects.now ≡ false }
    requires sound { are_sound_effects task.now effects.now ≡ true }
    ensures shape { IsRowOf task.now next.new }
    ensures bits { next.new.bits ≡ next.old.bits }
    ensures width { is_err result ≡ is_change_wide task.now (sight_of row.now) (values_in next.old.values) (ground_firing task.now (sight_of row.now) effects.now) }
    ensures values { IfOk result (λ done. (term : ℕ) → values_in next.new.values term ≡ changed_value task.now (sight_of row.now) (ground_firing task.now (sight_of row.now) effects.now) term (values_in next.old.values term)) }
{
    for effect in effects {
        match change_value(task, row, effect, next) {
            Ok(()) => {}
            Err(Wide) => return Err(Wide),
        }
    }
    Ok(())
}

fn change_value(task: &Task, row: &Row, effect: &GroundEffect, next: &mut Row) -> Result<(), Wide>
    requires shape { IsRowOf task.now next.old }
    requires narrow { is_wide_cond task.now (sight_of row.now) effect.now.condition ≡ false }
    requires sound { is_sound_change task.now effect.now.change ≡ true }
    ensures shape { IsRowOf task.now next.new }
    ensures bits { next.new.bits ≡ next.old.bits }
    ensures width { is_err result ≡ is_change_wide task.now (sight_of row.now) (values_in next.old.values) (ground_firing task.now (sight_of row.now) (effect.now ∷ [])) }
    ensures values { IfOk result (λ done. (term : ℕ) → values_in next.new.values term ≡ changed_value task.now (sight_of row.now) (ground_firing task.now (sight_of row.now) (effect.now ∷ [])) term (values_in next.old.values term)) }
{
    match &effect.change {
        GroundChange::Add { atom: _ } => Ok(()),
        GroundChange::Delete { atom: _ } => Ok(()),
        GroundChange::Number { op, term, value } => {
            if holds(task, row, &effect.condition) {
                change_number(task, row, *op, *term, *value, next)
            } else {
                Ok(())
            }
        }
        GroundChange::Cost { value: _ } => Ok(()),
        GroundChange::Nothing => Ok(()),
    }
}

fn change_number(
    task: &Task,
    row: &Row,
    op: Op,
    term: u32,
    value: Option<u32>,
    next: &mut Row,
) -> Result<(), Wide>
    requires { term < length next.old.values }
    ensures length { length next.new.values ≡ length next.old.values }
    ensures bits { next.new.bits ≡ next.old.bits }
    ensures width { is_err result ≡ is_change_wide task.now (sight_of row.now) (values_in next.old.values) (change.Number op term value ∷ []) }
    ensures values { IfOk result (λ done. (other : ℕ) → values_in next.new.values other ≡ changed_value task.now (sight_of row.now) (change.Number op term value ∷ []) other (values_in next.old.values other)) }
{
    let value = match right_side(task, row, value) {
        Ok(value) => value,
        Err(Wide) => return Err(Wide),
    };
    match new_value(op, value_of(next, term), value) {
        Ok(new) => {
            next.set_value(term as usize, new);
            Ok(())
        }
        Err(Wide) => Err(Wide),
    }
}

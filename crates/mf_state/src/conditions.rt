ghost use Rattle.mf_model.specs.Meaning.{all_of, any_of};
ghost use Rattle.mf_task.specs.GroundMeaning.{form_at, ground_holds, ground_truth, truth_at};
ghost use Rattle.mf_task.specs.LinearForms.{form_value};
ghost use Rattle.mf_task.specs.Rows.{sight_of};
ghost use Rattle.mf_task.specs.Width.{is_wide_at, is_wide_cond};
ghost use Rattle.std.specs.List.{list_any};
ghost use Rattle.std.specs.Prelude.{◌≡◌, false, map};

use crate::forms::numbered_value;
use crate::reading::is_true;
use crate::truth::{both, comparison, either, is_yes, negation, truth};
use mf_fraction::Wide;
use mf_model::{Relation, Truth};
use mf_task::{GroundCond, Row, Task};

// Whether the condition holds at the row.
pub(crate) fn holds(task: &Task, row: &Row, condition: &GroundCond) -> bool
    requires { is_wide_cond task.now (sight_of row.now) condition.now ≡ false }
    ensures { result ≡ ground_holds task.now (sight_of row.now) condition.now }
{
    is_yes(truth_at_row(task, row, condition))
}

#[cycle(truth_at_row)]
fn truth_at_row(task: &Task, row: &Row, condition: &GroundCond) -> Truth
    requires { is_wide_cond task.now (sight_of row.now) condition.now ≡ false }
    ensures { result ≡ ground_truth task.now (sight_of row.now) condition.now }
{
    match condition {
        GroundCond::Fact { holds } => truth(*holds),
        GroundCond::Neither => Truth::Neither,
        GroundCond::Atom { atom } => truth(is_true(row, *atom)),
        GroundCond::Compare { relation, form } => compared(task, row, *relation, *form),
        GroundCond::Not { part } => negation(truth_at_row(task, row, part.get())),
        GroundCond::And { parts } => all(task, row, parts.as_slice()),
        GroundCond::Or { parts } => any(task, row, parts.as_slice()),
    }
}

#[cycle(truth_at_row)]
fn all(task: &Task, row: &Row, parts: &[GroundCond]) -> Truth
    requires { list_any (is_wide_cond task.now (sight_of row.now)) parts.now ≡ false }
    ensures { result ≡ all_of (map (ground_truth task.now (sight_of row.now)) parts.now) }
{
    let mut front = Truth::Yes;
    for part in parts {
        front = both(front, truth_at_row(task, row, part));
        if front == Truth::No {
            return Truth::No;
        }
    }
    front
}

#[cycle(truth_at_row)]
fn any(task: &Task, row: &Row, parts: &[GroundCond]) -> Truth
    requires { list_any (is_wide_cond task.now (sight_of row.now)) parts.now ≡ false }
    ensures { result ≡ any_of (map (ground_truth task.now (sight_of row.now)) parts.now) }
{
    let mut front = Truth::No;
    for part in parts {
        front = either(front, truth_at_row(task, row, part));
        if front == Truth::Yes {
            return Truth::Yes;
        }
    }
    front
}

// Of a comparison of the form of this number with 0.
fn compared(task: &Task, row: &Row, relation: Relation, form: u32) -> Truth
    requires { is_wide_at (sight_of row.now).value (form_at task.now form) ≡ false }
    ensures { result ≡ truth_at relation (form_value (sight_of row.now).value (form_at task.now form)) }
{
    match numbered_value(task, row, form) {
        Ok(value) => comparison(relation, value),
        Err(Wide) => unreachable!(),
    }
}

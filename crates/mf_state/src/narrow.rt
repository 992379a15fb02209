ghost use Rattle.mf_state.specs.Narrowness as spec;
ghost use Rattle.mf_store.specs.SameRows.{same_value};
ghost use Rattle.mf_task.specs.Rows.{sight_of};
ghost use Rattle.mf_task.specs.Width.{is_narrow, is_wide_at};
ghost use Rattle.std.specs.List.{list_all};
ghost use Rattle.std.specs.Prelude.{◌≡◌, ◌≤◌, length, true};

use crate::forms::value_of_form;
use crate::reading::value_of;
use crate::width::wide_place;
use mf_task::{Form, Part, Row, Task};

// Whether no comparison is wide at the next row, as none is at this one. Comparisons are looked at only where a form that
// reads a changed value is wide.
pub(crate) fn stays_narrow(task: &Task, row: &Row, next: &Row) -> bool
    requires few { length task.now.actions ≤ 1000000 }
    requires narrow { is_narrow task.now (sight_of row.now) ≡ true }
    ensures { result ≡ is_narrow task.now (sight_of next.now) }
{
    if row.values() == next.values() {
        return true;
    }
    if are_as_wide(task, row, next) {
        return true;
    }
    wide_place(task, next).is_none()
}

fn are_as_wide(task: &Task, row: &Row, next: &Row) -> bool
    ensures { result ≡ list_all (spec.is_as_wide (sight_of row.now).value (sight_of next.now).value) task.now.forms }
{
    for form in task.forms.as_slice() {
        if !is_as_wide(row, next, form) {
            return false;
        }
    }
    true
}

// Whether the form reads the same values at both rows, or is wide at neither.
fn is_as_wide(row: &Row, next: &Row, form: &Form) -> bool
    ensures { result ≡ spec.is_as_wide (sight_of row.now).value (sight_of next.now).value form.now }
{
    reads_same_values(row, next, form.parts.as_slice())
        || !is_wide(next, form) && !is_wide(row, form)
}

fn reads_same_values(row: &Row, next: &Row, parts: &[Part]) -> bool
    ensures { result ≡ list_all (λ p. same_value ((sight_of row.now).value p.term) ((sight_of next.now).value p.term)) parts.now }
{
    for part in parts {
        if value_of(row, part.term) != value_of(next, part.term) {
            return false;
        }
    }
    true
}

fn is_wide(row: &Row, form: &Form) -> bool
    ensures { result ≡ is_wide_at (sight_of row.now).value form.now }
{
    value_of_form(row, form).is_err()
}

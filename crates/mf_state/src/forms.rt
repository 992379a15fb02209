ghost use Rattle.mf_state.specs.Answers.{answer_of, checked_added};
ghost use Rattle.mf_task.specs.GroundMeaning.{form_at};
ghost use Rattle.mf_task.specs.LinearForms.{form_value, weight};
ghost use Rattle.mf_task.specs.Rows.{sight_of};
ghost use Rattle.mf_task.specs.Width as width;
ghost use Rattle.mf_model.specs.Meaning.{plus};
ghost use Rattle.std.specs.Prelude.{◌≡◌, IfOk, Some, pos};
ghost use Rattle.mf_fraction.specs.Exact.{whole};

use crate::reading::value_of;
use mf_fraction::laws::stored_laws;
use mf_fraction::{Frac, Wide, add, mul};
use mf_task::{Form, Part, Row, Task};

// The value at the row of the form of this number: undefined where a term is, else wide where a product or a partial sum
// does not fit.
pub(crate) fn numbered_value(task: &Task, row: &Row, number: u32) -> Result<Option<Frac>, Wide>
    ensures checked { result ≡ answer_of (width.bounded_value (sight_of row.now).value (form_at task.now number)) }
    ensures exact { IfOk result (λ value. value ≡ form_value (sight_of row.now).value (form_at task.now number)) }
{
    match task.forms.get(number as usize) {
        Some(form) => value_of_form(row, form),
        None => Ok(Some(zero())),
    }
}

#[tactic(auto, unfolding(mf_fraction::specs::Checked::checked, mf_fraction::specs::Exact::fits))]
pub(crate) fn zero() -> Frac
    ensures { result ≡ whole (pos 0) }
{
    match Frac::whole(0) {
        Ok(number) => number,
        Err(Wide) => unreachable!(),
    }
}

pub(crate) fn value_of_form(row: &Row, form: &Form) -> Result<Option<Frac>, Wide>
    ensures checked { result ≡ answer_of (width.bounded_value (sight_of row.now).value form.now) }
    ensures exact { IfOk result (λ value. value ≡ form_value (sight_of row.now).value form.now) }
{
    if !are_defined(row, form.parts.as_slice()) {
        return Ok(None);
    }
    added_up(row, form.constant, form.parts.as_slice())
}

// Whether each term of the parts has a value.
fn are_defined(row: &Row, parts: &[Part]) -> bool
    ensures { result ≡ width.all_defined (sight_of row.now).value parts.now }
{
    for part in parts {
        if value_of(row, part.term).is_none() {
            return false;
        }
    }
    true
}

// The products of the parts, added to the constant one by one.
fn added_up(row: &Row, constant: Frac, parts: &[Part]) -> Result<Option<Frac>, Wide>
    ensures checked { result ≡ answer_of (width.added_up (sight_of row.now).value constant parts.now) }
    ensures exact { IfOk result (λ value. value ≡ plus (Some constant) (weight (sight_of row.now).value parts.now)) }
{
    let mut sum = constant;
    for part in parts {
        let Some(value) = value_of(row, part.term) else {
            return Ok(None);
        };
        match added(sum, part.coefficient, value) {
            Ok(next) => sum = next,
            Err(Wide) => return Err(Wide),
        }
    }
    stored_laws(sum);
    Ok(Some(sum))
}

// The sum with the product of the coefficient and the value.
fn added(sum: Frac, coefficient: Frac, value: Frac) -> Result<Frac, Wide>
    ensures { result ≡ checked_added sum coefficient value }
{
    add(sum, mul(coefficient, value)?)
}

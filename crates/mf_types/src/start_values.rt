ghost use Rattle.std.specs.Prelude.{◌≡◌, map, slice_get, IfOk, OnOk};
ghost use Rattle.std.specs.Option.{option_copied};
ghost use Rattle.mf_types.specs.Faults.{after};
ghost use Rattle.mf_types.specs.StartValues as spec;
ghost use Rattle.mf_types.specs.Tables.{pointed};

use crate::decimals::is_same_number;
use crate::expressions::wide_at;
use crate::least::{Fault, FaultKind, at_word};
use indexmap::IndexSet;
use mf_model::{FileKind, List, RawValue, Text};
use std::alloc::{AllocError, Global};

/// The faults of start values: a term with a second value that differs from its first, and
/// numbers that don't fit.
#[tactic(auto, using(crate::proofs::After::after_append))]
pub(crate) fn start_values(
    alloc: Global,
    mut best: Option<Fault>,
    values: &[RawValue],
) -> Result<Option<Fault>, AllocError>
    ensures { IfOk result (λ fault. fault ≡ after best (spec.value_faults values.now)) }
{
    let mut terms = IndexSet::new(alloc);
    let mut firsts = List::new(alloc);
    for value in values {
        best = repeated_at(alloc, best, &mut terms, &mut firsts, value)?;
        best = wide_at(best, FileKind::ProblemFile, &value.value);
    }
    Ok(best)
}

// The fault of a value that differs from the first one of its term. The first value of a term
// goes behind those of the other terms.
fn repeated_at<'a>(
    alloc: Global,
    best: Option<Fault>,
    terms: &mut IndexSet<List<Text>>,
    firsts: &mut List<&'a RawValue>,
    value: &'a RawValue,
) -> Result<Option<Fault>, AllocError>
    requires { terms.old.keys ≡ map spec.term_names (pointed firsts.old) }
    ensures faults { IfOk result
        (λ fault. fault ≡ after best
        (spec.differs_at (spec.first_of (pointed firsts.old) value.now) value.now)) }
    ensures firsts { OnOk result
        (pointed firsts.new ≡ spec.with_value (pointed firsts.old) value.now) }
    ensures terms { OnOk result (terms.new.keys ≡ map spec.term_names (pointed firsts.new)) }
{
    let names = term_names(alloc, value)?;
    let (place, is_new) = terms.insert_full(names)?;
    if is_new {
        firsts.push(value)?;
        return Ok(best);
    }
    Ok(differs_at(best, first_at(firsts, place), value))
}

fn first_at<'a>(firsts: &List<&'a RawValue>, place: usize) -> Option<&'a RawValue>
    ensures { option_copied result ≡ slice_get (pointed firsts.now) place }
{
    firsts.get(place).copied()
}

fn differs_at(best: Option<Fault>, first: Option<&RawValue>, value: &RawValue) -> Option<Fault>
    ensures { result ≡ after best (spec.differs_at (option_copied first.entry) value.now) }
{
    match first {
        None => best,
        Some(first) => {
            if is_same_number(first.value.text.as_slice(), value.value.text.as_slice()) {
                return best;
            }
            at_word(best, FaultKind::Twice, FileKind::ProblemFile, &value.value)
        }
    }
}

// The names of a term: the function, and then the objects.
fn term_names(alloc: Global, value: &RawValue) -> Result<List<Text>, AllocError>
    ensures { IfOk result (λ names. names ≡ spec.term_names value.now) }
{
    let mut names = List::new(alloc);
    names.push(value.function.text.copy(alloc)?)?;
    for object in value.objects.as_slice() {
        names.push(object.text.copy(alloc)?)?;
    }
    Ok(names)
}

ghost use Rattle.std.specs.Prelude.{◌≡◌, ◌≤◌, length, Some, pos};
ghost use Rattle.mf_fraction.specs.Exact.{whole};
ghost use Rattle.mf_model.specs.Resolution.{number_of};
ghost use Rattle.mf_types.specs.Arguments.{is_variable};
ghost use Rattle.mf_types.specs.Gives.{Gives};
ghost use Rattle.mf_types.specs.Tables.{declared_of};
ghost use Rattle.mf_types.specs.Tasks.{AreFew};
ghost use Rattle.mf_types.specs.Typing as spec;

use crate::binders::Binders;
use crate::refusal::Refusal;
use crate::tables::Tables;
use mf_fraction::{Frac, NumberFault, Wide, read_decimal};
use mf_model::{List, Term, Word};
use std::alloc::Global;

/// The place of a variable in the binding.
fn variable(binders: &Binders, name: &[u8]) -> Result<Term, Refusal>
    requires room { length binders.now ≤ 64 }
    ensures { Gives result (spec.variable_at (spec.place_in binders.now name.now)) }
{
    match binders.find(name) {
        Some(place) => Ok(Term::Variable(place as u8)),
        None => Err(Refusal::Refused),
    }
}

/// The number of an object.
pub(crate) fn object(tables: &Tables, name: &[u8]) -> Result<u16, Refusal>
    requires few { AreFew (declared_of tables.now) }
    ensures { Gives result (number_of (declared_of tables.now).objects name.now) }
{
    match tables.find_object(name) {
        Some(number) => Ok(number as u16),
        None => Err(Refusal::Refused),
    }
}

// The word of a variable begins with `?`.
fn is_variable(word: &[u8]) -> bool
    ensures { result ≡ is_variable word.now }
{
    match word {
        [] => false,
        [first, ..] => *first == b'?',
    }
}

/// The place of a variable in the binding, or the number of an object.
#[tactic(auto, unfolding(crate::specs::Typing::term_of))]
pub(crate) fn term(tables: &Tables, binders: &Binders, word: &Word) -> Result<Term, Refusal>
    requires few { AreFew (declared_of tables.now) }
    requires room { length binders.now ≤ 64 }
    ensures { Gives result (spec.term_of (declared_of tables.now) binders.now word.now) }
{
    if is_variable(word.text.as_slice()) {
        return variable(binders, word.text.as_slice());
    }
    Ok(Term::Object(object(tables, word.text.as_slice())?))
}

/// The terms of an atom or of a function.
pub(crate) fn terms(
    alloc: Global,
    tables: &Tables,
    binders: &Binders,
    words: &[Word],
) -> Result<List<Term>, Refusal>
    requires few { AreFew (declared_of tables.now) }
    requires room { length binders.now ≤ 64 }
    ensures { Gives result (spec.terms_of (declared_of tables.now) binders.now words.now) }
{
    let mut out = List::new(alloc);
    for word in words {
        let term = term(tables, binders, word)?;
        out.push(term)?;
    }
    Ok(out)
}

/// The number of a predicate that has so many parameters.
#[tactic(auto, unfolding(crate::specs::Typing::symbol_of))]
pub(crate) fn predicate(tables: &Tables, word: &Word, count: usize) -> Result<u16, Refusal>
    requires few { AreFew (declared_of tables.now) }
    ensures { Gives result (spec.predicate_of (declared_of tables.now) word.now.text count) }
{
    let Some(number) = tables.find_predicate(word.text.as_slice()) else {
        return Err(Refusal::Refused);
    };
    if tables.types_of_predicate(number).len() == count {
        Ok(number as u16)
    } else {
        Err(Refusal::Refused)
    }
}

/// The number of a function that has so many parameters.
#[tactic(auto, unfolding(crate::specs::Typing::symbol_of))]
pub(crate) fn function(tables: &Tables, word: &Word, count: usize) -> Result<u16, Refusal>
    requires few { AreFew (declared_of tables.now) }
    ensures { Gives result (spec.function_of (declared_of tables.now) word.now.text count) }
{
    let Some(number) = tables.find_function(word.text.as_slice()) else {
        return Err(Refusal::Refused);
    };
    if tables.types_of_function(number).len() == count {
        Ok(number as u16)
    } else {
        Err(Refusal::Refused)
    }
}

#[tactic(auto, unfolding(mf_fraction::specs::Checked::checked, mf_fraction::specs::Exact::fits))]
fn zero() -> Result<Frac, Refusal>
    ensures { Gives result (Some (whole (pos 0))) }
{
    match Frac::whole(0) {
        Ok(number) => Ok(number),
        Err(Wide) => Err(Refusal::Refused),
    }
}

/// The exact value of a number; a word that is no number counts as 0.
pub(crate) fn number(word: &Word) -> Result<Frac, Refusal>
    ensures { Gives result (spec.number_in word.now) }
{
    match read_decimal(word.text.as_slice()) {
        Ok(number) => Ok(number),
        Err(NumberFault::Wide) => Err(Refusal::Refused),
        Err(NumberFault::NotANumber) => zero(),
    }
}

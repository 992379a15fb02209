ghost use Rattle.std.specs.Prelude.{◌≡◌, IfOk};
ghost use Rattle.mf_model.specs.States.{same_numbers, is_atom};
ghost use Rattle.mf_model.specs.Views.{object_of, objects_of};

use crate::Memory;
use mf_model::{Atom, List, Term};
use std::alloc::Global;

/// The object that a term stands for.
pub(crate) fn object(term: Term, binding: &[u16]) -> u16
    ensures { result ≡ object_of binding.now term }
{
    match term {
        Term::Variable(place) => match binding.get(place as usize) {
            Some(number) => *number,
            None => 0,
        },
        Term::Object(number) => number,
    }
}

/// Whether the terms stand for these objects.
fn stand_for(terms: &[Term], binding: &[u16], objects: &[u16]) -> bool
    ensures { result ≡ same_numbers (objects_of binding.now terms.now) objects.now }
{
    for (i, term) in terms.iter().enumerate() {
        if i >= objects.len() {
            return false;
        }
        if object(*term, binding) != objects[i] {
            return false;
        }
    }
    terms.len() == objects.len()
}

/// Whether the atom is that of the predicate with these terms.
pub(crate) fn names(predicate: u16, terms: &[Term], binding: &[u16], atom: &Atom) -> bool
    ensures { result ≡ is_atom predicate (objects_of binding.now terms.now) atom.now }
{
    predicate == atom.predicate && stand_for(terms, binding, atom.objects.as_slice())
}

fn objects(alloc: Global, terms: &[Term], binding: &[u16]) -> Result<List<u16>, Memory>
    ensures { IfOk result (λ list. list ≡ objects_of binding.now terms.now) }
{
    let mut list = List::new(alloc);
    for term in terms {
        list.push(object(*term, binding))?;
    }
    Ok(list)
}

/// The ground atom of a predicate with terms.
pub(crate) fn ground(
    alloc: Global,
    predicate: u16,
    terms: &[Term],
    binding: &[u16],
) -> Result<Atom, Memory>
    ensures { IfOk result (λ atom. atom ≡ record { predicate = predicate; objects = objects_of binding.now terms.now }) }
{
    Ok(Atom {
        predicate,
        objects: objects(alloc, terms, binding)?,
    })
}

ghost use Rattle.mf_eval.specs.Comparisons.{key_cmp};
ghost use Rattle.mf_model.specs.States.{same_numbers};
ghost use Rattle.mf_model.specs.Views.{objects_of};
ghost use Rattle.std.specs.Cmp.Lexicographic.{slice_cmp};
ghost use Rattle.std.specs.Ordering.{nat_cmp};
ghost use Rattle.std.specs.Prelude.{◌≡◌, ◌&&◌, nat_eq};

use crate::binding::object_at;
use mf_model::{Atom, Cell, Term};
use std::cmp::Ordering;

pub(crate) fn is_same_cell(left: &Cell, right: &Cell) -> bool
    ensures { result ≡ (nat_eq left.now.function right.now.function && same_numbers left.now.objects right.now.objects) }
{
    left.function == right.function
        && is_same_objects(left.objects.as_slice(), right.objects.as_slice())
}

fn is_same_objects(left: &[u16], right: &[u16]) -> bool
    ensures { result ≡ same_numbers left.now right.now }
{
    left == right
}

// How an atom stands to the atom of the predicate at these terms.
pub(crate) fn compare_atom(atom: &Atom, predicate: u16, terms: &[Term], binding: &[u16]) -> Ordering
    ensures { result ≡ key_cmp atom.now.predicate atom.now.objects predicate (objects_of binding.now terms.now) }
{
    atom.predicate.cmp(&predicate).then_with(|| compare_objects(
        atom.objects.as_slice(),
        terms,
        binding,
    ))
}

// How a ground function term stands to the one of the function at these terms.
pub(crate) fn compare_cell(cell: &Cell, function: u16, terms: &[Term], binding: &[u16]) -> Ordering
    ensures { result ≡ key_cmp cell.now.function cell.now.objects function (objects_of binding.now terms.now) }
{
    cell.function.cmp(&function).then_with(|| compare_objects(
        cell.objects.as_slice(),
        terms,
        binding,
    ))
}

// How objects stand to those that the terms stand for, in lexicographic order.
fn compare_objects(objects: &[u16], terms: &[Term], binding: &[u16]) -> Ordering
    ensures { result ≡ slice_cmp nat_cmp objects.now (objects_of binding.now terms.now) }
{
    for (at, object) in objects.iter().enumerate() {
        if at >= terms.len() {
            return Ordering::Greater;
        }
        let order = object.cmp(&object_at(binding, terms[at]));
        if order.is_ne() {
            return order;
        }
    }
    if objects.len() < terms.len() {
        return Ordering::Less;
    }
    Ordering::Equal
}

ghost use Rattle.mf_meaning.specs.SortedStates.{IsSortedList};
ghost use Rattle.mf_model.specs.States.{atom_before, cell_before, is_atom, value_at};
ghost use Rattle.mf_model.specs.Views.{objects_of};
ghost use Rattle.std.specs.List.{list_any};
ghost use Rattle.std.specs.Prelude.{◌≡◌};

use crate::order::{compare_atom, compare_cell};
use mf_fraction::Frac;
use mf_model::{Atom, Cell, Term, Valued};

// The value that sorted values have of the function at these terms, if it is defined.
pub(crate) fn value_of_term(
    values: &[Valued],
    function: u16,
    terms: &[Term],
    binding: &[u16],
) -> Option<Frac>
    requires { IsSortedList cell_before values.now }
    ensures { result ≡ value_at values.now function (objects_of binding.now terms.now) }
{
    match values.binary_search_by(|valued| compare_cell(&valued.cell, function, terms, binding)) {
        Ok(at) => Some(values[at].value),
        Err(_) => None,
    }
}

// The value that sorted values have of a ground function term, if it is defined.
pub(crate) fn value_of(values: &[Valued], cell: &Cell) -> Option<Frac>
    requires { IsSortedList cell_before values.now }
    ensures { result ≡ value_at values.now cell.now.function cell.now.objects }
{
    match values.binary_search_by(|valued| valued.cell.cmp(cell)) {
        Ok(at) => Some(values[at].value),
        Err(_) => None,
    }
}

// Whether the atom of the predicate at these terms is among sorted atoms.
pub(crate) fn is_true(atoms: &[Atom], predicate: u16, terms: &[Term], binding: &[u16]) -> bool
    requires { IsSortedList atom_before atoms.now }
    ensures { result ≡ list_any (is_atom predicate (objects_of binding.now terms.now)) atoms.now }
{
    atoms
        .binary_search_by(|atom| compare_atom(atom, predicate, terms, binding))
        .is_ok()
}

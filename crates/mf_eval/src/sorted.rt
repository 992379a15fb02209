ghost use Rattle.mf_eval.specs.Places.{IsAtomPlace, IsValuePlace};
ghost use Rattle.mf_meaning.specs.SortedStates.{IsSortedList};
ghost use Rattle.mf_model.specs.States.{atom_before, cell_before, with_atom, with_value, without_atom};
ghost use Rattle.std.specs.Prelude.{◌≡◌, OnOk};

use crate::fault::Memory;
use mf_model::{Atom, Valued};

// Puts the atom into sorted atoms, where it is not there already.
pub(crate) fn put_atom(atoms: &mut Vec<Atom>, atom: Atom) -> Result<(), Memory>
    requires { IsSortedList atom_before atoms.old.items }
    ensures atoms { OnOk result (atoms.new.items ≡ with_atom atoms.old.items atom) }
    ensures sorted { OnOk result (IsSortedList atom_before atoms.new.items) }
{
    if let Err(at) = place_of_atom(atoms.as_slice(), &atom) {
        atoms.insert(at, atom)?;
    }
    Ok(())
}

// Takes the atom out of sorted atoms, where it is there.
pub(crate) fn take_atom(atoms: &mut Vec<Atom>, atom: &Atom)
    requires { IsSortedList atom_before atoms.old.items }
    ensures atoms { atoms.new.items ≡ without_atom atoms.old.items atom.now }
    ensures sorted { IsSortedList atom_before atoms.new.items }
{
    if let Ok(at) = place_of_atom(atoms.as_slice(), atom) {
        atoms.remove(at);
    }
}

// Puts the value into sorted values, in the place of an older value of its term.
pub(crate) fn put_value(values: &mut Vec<Valued>, valued: Valued) -> Result<(), Memory>
    requires { IsSortedList cell_before values.old.items }
    ensures values { OnOk result (values.new.items ≡ with_value values.old.items valued) }
    ensures sorted { OnOk result (IsSortedList cell_before values.new.items) }
{
    match place_of_value(values.as_slice(), &valued) {
        Ok(at) => values[at] = valued,
        Err(at) => values.insert(at, valued)?,
    }
    Ok(())
}

// The place of the atom in sorted atoms, or else the place where it would go.
fn place_of_atom(atoms: &[Atom], atom: &Atom) -> Result<usize, usize>
    requires { IsSortedList atom_before atoms.now }
    ensures { IsAtomPlace atoms.now atom.now result }
{
    atoms.binary_search(atom)
}

// The place of the value's term in sorted values, or else the place where it would go.
fn place_of_value(values: &[Valued], valued: &Valued) -> Result<usize, usize>
    requires { IsSortedList cell_before values.now }
    ensures { IsValuePlace values.now valued.now result }
{
    values.binary_search_by(|other| other.cell.cmp(&valued.cell))
}

//! Sorted lists of atoms.
ghost use Rattle.std.specs.Prelude.{◌≡◌, insert, OnOk};
ghost use Rattle.mf_model.specs.States.{numbers_before, same_atom, atom_before, with_atom};
ghost use Rattle.mf_plain.specs.Places.{IsPlaceOf};

use crate::Memory;
use mf_model::{Atom, List};

/// Whether the two atoms are the same.
pub(crate) fn same(left: &Atom, right: &Atom) -> bool
    ensures { result ≡ same_atom left.now right.now }
{
    left == right
}

/// Whether the objects come before the others in lexicographic order.
fn objects_before(left: &[u16], right: &[u16]) -> bool
    ensures { result ≡ numbers_before left.now right.now }
{
    for (i, object) in left.iter().enumerate() {
        if i >= right.len() {
            return false;
        }
        if *object != right[i] {
            return *object < right[i];
        }
    }
    left.len() < right.len()
}

fn before(left: &Atom, right: &Atom) -> bool
    ensures { result ≡ atom_before left.now right.now }
{
    if left.predicate != right.predicate {
        return left.predicate < right.predicate;
    }
    objects_before(left.objects.as_slice(), right.objects.as_slice())
}

/// Where an atom stands in a sorted list of atoms, or where it is to be put.
#[derive(Clone, Copy, Debug)]
pub(crate) enum Place {
    There,
    New(usize),
}

fn place_of(atoms: &[Atom], atom: &Atom) -> Place
    ensures { IsPlaceOf atoms.now atom.now result }
{
    for (i, other) in atoms.iter().enumerate() {
        if same(atom, other) {
            return Place::There;
        }
        if before(atom, other) {
            return Place::New(i);
        }
    }
    Place::New(atoms.len())
}

/// Puts an atom into a sorted list, where it isn't there already.
pub(crate) fn put(atoms: &mut List<Atom>, atom: Atom) -> Result<(), Memory>
    ensures { OnOk result (atoms.new ≡ with_atom atoms.old atom) }
{
    match place_of(atoms.as_slice(), &atom) {
        Place::There => {}
        Place::New(at) => atoms.insert(at, atom)?,
    }
    Ok(())
}

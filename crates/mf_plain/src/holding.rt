ghost use Rattle.std.specs.Prelude.{◌≡◌, ◌++◌, true, OnOk};
ghost use Rattle.std.specs.List.{list_any, count_by};
ghost use Rattle.std.specs.Prelude.{not};
ghost use Rattle.mf_model.specs.States.{is_atom};
ghost use Rattle.mf_model.specs.Views.{objects_of};
ghost use Rattle.mf_plain.specs.Conjunctions.{is_conjunction, needs_of, is_true, all_needs};

use crate::Memory;
use crate::order::same;
use crate::terms::{ground, names};
use mf_model::{Atom, Cond, List, Term};
use std::alloc::Global;

/// Whether the atom of the predicate with these terms is one of the atoms.
fn is_among(predicate: u16, terms: &[Term], binding: &[u16], atoms: &[Atom]) -> bool
    ensures { result ≡ list_any (is_atom predicate (objects_of binding.now terms.now)) atoms.now }
{
    atoms
        .iter()
        .any(|atom| names(predicate, terms, binding, atom))
}

/// Whether a conjunction of atoms holds where these atoms are true.
pub(crate) fn holds(condition: &Cond, binding: &[u16], atoms: &[Atom]) -> bool
    requires { is_conjunction condition.now ≡ true }
    ensures { result ≡ all_needs atoms.now (needs_of condition.now binding.now) }
{
    match condition {
        Cond::Atom { predicate, terms } => is_among(*predicate, terms.as_slice(), binding, atoms),
        Cond::And { parts } => {
            for part in parts.as_slice() {
                if !holds(part, binding, atoms) {
                    return false;
                }
            }
            true
        }
        _ => unreachable!(),
    }
}

/// Adds the atoms of a conjunction to the list.
pub(crate) fn list_needs(
    alloc: Global,
    condition: &Cond,
    binding: &[u16],
    needs: &mut List<Atom>,
) -> Result<(), Memory>
    requires { is_conjunction condition.now ≡ true }
    ensures { OnOk result (needs.new ≡ needs.old ++ needs_of condition.now binding.now) }
{
    match condition {
        Cond::Atom { predicate, terms } => {
            let atom = ground(alloc, *predicate, terms.as_slice(), binding)?;
            needs.push(atom)?;
        }
        Cond::And { parts } => {
            for part in parts.as_slice() {
                list_needs(alloc, part, binding, needs)?;
            }
        }
        _ => unreachable!(),
    }
    Ok(())
}

fn contains(atoms: &[Atom], atom: &Atom) -> bool
    ensures { result ≡ is_true atoms.now atom.now }
{
    atoms.iter().any(|other| same(atom, other))
}

/// The number of the needed atoms that aren't among these.
pub(crate) fn unmet(needs: &[Atom], atoms: &[Atom]) -> u64
    ensures { result ≡ count_by (λ need. not (is_true atoms.now need)) needs.now }
{
    needs.iter().filter(|need| !contains(atoms, need)).count() as u64
}

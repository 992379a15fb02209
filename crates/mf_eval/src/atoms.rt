ghost use Rattle.mf_eval.specs.Fired.{changes_in};
ghost use Rattle.mf_meaning.specs.SortedStates.{IsSortedList};
ghost use Rattle.mf_model.specs.Application.{added, deleted};
ghost use Rattle.mf_model.specs.States.{atom_before, with_atom, without_atom};
ghost use Rattle.std.specs.List.{flat_map, fold};
ghost use Rattle.std.specs.Prelude.{◌≡◌, IfOk, OnOk};

use crate::deed::Deed;
use crate::fault::Memory;
use crate::sorted::{put_atom, take_atom};
use mf_model::Atom;
use std::alloc::Global;

// The sorted old atoms without the deleted ones, together with the added ones.
pub(crate) fn changed_atoms(
    alloc: Global,
    atoms: &[Atom],
    deeds: &[Deed],
) -> Result<Vec<Atom>, Memory>
    requires { IsSortedList atom_before atoms.now }
    ensures atoms { IfOk result (λ changed. changed.items
        ≡ fold with_atom (fold without_atom atoms.now (flat_map deleted (changes_in deeds.now))) (flat_map added (changes_in deeds.now))) }
    ensures sorted { IfOk result (λ changed. IsSortedList atom_before changed.items) }
{
    let mut changed = copy_atoms(alloc, atoms)?;
    delete_atoms(&mut changed, deeds);
    add_atoms(alloc, &mut changed, deeds)?;
    Ok(changed)
}

fn copy_atoms(alloc: Global, atoms: &[Atom]) -> Result<Vec<Atom>, Memory>
    ensures { IfOk result (λ copies. copies.items ≡ atoms.now) }
{
    let mut copies = Vec::new(alloc);
    for atom in atoms {
        copies.push(atom.copy(alloc)?)?;
    }
    Ok(copies)
}

fn delete_atoms(atoms: &mut Vec<Atom>, deeds: &[Deed])
    requires { IsSortedList atom_before atoms.old.items }
    ensures atoms { atoms.new.items ≡ fold without_atom atoms.old.items (flat_map deleted (changes_in deeds.now)) }
    ensures sorted { IsSortedList atom_before atoms.new.items }
{
    for deed in deeds {
        if let Deed::Deleted(atom) = deed {
            take_atom(atoms, atom);
        }
    }
}

fn add_atoms(alloc: Global, atoms: &mut Vec<Atom>, deeds: &[Deed]) -> Result<(), Memory>
    requires { IsSortedList atom_before atoms.old.items }
    ensures atoms { OnOk result (atoms.new.items ≡ fold with_atom atoms.old.items (flat_map added (changes_in deeds.now))) }
    ensures sorted { OnOk result (IsSortedList atom_before atoms.new.items) }
{
    for deed in deeds {
        if let Deed::Added(atom) = deed {
            put_atom(atoms, atom.copy(alloc)?)?;
        }
    }
    Ok(())
}

ghost use Rattle.std.specs.Prelude.{◌≡◌, true, IfOk, OnOk, not, filter};
ghost use Rattle.std.specs.List.{fold};
ghost use Rattle.mf_model.specs.States.{with_atom, without_atom};
ghost use Rattle.mf_plain.specs.Changes.{only_changes_atoms, adds_of, deletes_of, is_deleted};

use crate::Memory;
use crate::order::put;
use crate::terms::{ground, names};
use mf_model::{Atom, Effect, List, PlainState, Valued};
use std::alloc::Global;

/// Whether the effect deletes the atom.
fn deletes(effect: &Effect, binding: &[u16], atom: &Atom) -> bool
    requires { only_changes_atoms effect.now ≡ true }
    ensures { result ≡ is_deleted (deletes_of effect.now binding.now) atom.now }
{
    match effect {
        Effect::Add { .. } => false,
        Effect::Delete { predicate, terms } => names(*predicate, terms.as_slice(), binding, atom),
        Effect::Group { parts } => {
            for part in parts.as_slice() {
                if deletes(part, binding, atom) {
                    return true;
                }
            }
            false
        }
        _ => unreachable!(),
    }
}

/// The atoms that the effect doesn't delete.
fn kept(
    alloc: Global,
    effect: &Effect,
    binding: &[u16],
    atoms: &[Atom],
) -> Result<List<Atom>, Memory>
    requires { only_changes_atoms effect.now ≡ true }
    ensures { IfOk result (λ list. list ≡ filter (λ atom. not (is_deleted (deletes_of effect.now binding.now) atom)) atoms.now) }
{
    let mut list = List::new(alloc);
    for atom in atoms {
        if !deletes(effect, binding, atom) {
            list.push(atom.copy(alloc)?)?;
        }
    }
    Ok(list)
}

/// Adds the atoms that the effect adds to a sorted list.
fn add(
    alloc: Global,
    effect: &Effect,
    binding: &[u16],
    atoms: &mut List<Atom>,
) -> Result<(), Memory>
    requires { only_changes_atoms effect.now ≡ true }
    ensures { OnOk result (atoms.new ≡ fold with_atom atoms.old (adds_of effect.now binding.now)) }
{
    match effect {
        Effect::Add { predicate, terms } => {
            let atom = ground(alloc, *predicate, terms.as_slice(), binding)?;
            put(atoms, atom)?;
        }
        Effect::Delete { .. } => {}
        Effect::Group { parts } => {
            for part in parts.as_slice() {
                add(alloc, part, binding, atoms)?;
            }
        }
        _ => unreachable!(),
    }
    Ok(())
}

fn copy_values(alloc: Global, values: &[Valued]) -> Result<List<Valued>, Memory>
    ensures { IfOk result (λ list. list ≡ values.now) }
{
    let mut list = List::new(alloc);
    for valued in values {
        list.push(valued.copy(alloc)?)?;
    }
    Ok(list)
}

/// The state after an effect that only adds and deletes atoms: the deletes come before the adds.
pub(crate) fn after_effect(
    alloc: Global,
    effect: &Effect,
    binding: &[u16],
    state: &PlainState,
) -> Result<PlainState, Memory>
    requires { only_changes_atoms effect.now ≡ true }
    ensures { IfOk result (λ next. next ≡ record {
      atoms = fold with_atom (fold without_atom state.now.atoms (deletes_of effect.now binding.now)) (adds_of effect.now binding.now);
      values = state.now.values;
    }) }
{
    let mut atoms = kept(alloc, effect, binding, state.atoms.as_slice())?;
    add(alloc, effect, binding, &mut atoms)?;
    let values = copy_values(alloc, state.values.as_slice())?;
    Ok(PlainState { atoms, values })
}

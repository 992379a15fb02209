ghost use Rattle.mf_eval.specs.Fired.{changes_in};
ghost use Rattle.mf_model.specs.Application.{Added, Changed, Deleted};
ghost use Rattle.mf_model.specs.Views.{objects_of};
ghost use Rattle.std.specs.Prelude.{◌≡◌, [], ◌∷◌, ◌++◌, IfOk, OnOk};

use crate::binding::object_at;
use crate::fault::Memory;
use mf_fraction::Frac;
use mf_model::{Atom, Cell, List, Op, Term};
use std::alloc::Global;

/// What a firing effect does; the value of a numeric one is its right side in the old state.
#[derive(Drop)]
pub(crate) enum Deed {
    Added(Atom),
    Deleted(Atom),
    Changed {
        op: Op,
        cell: Cell,
        value: Option<Frac>,
    },
}

pub(crate) fn note_added(
    predicate: u16,
    terms: &[Term],
    binding: &[u16],
    deeds: &mut Vec<Deed>,
) -> Result<(), Memory>
    ensures { OnOk result (changes_in deeds.new.items ≡ changes_in deeds.old.items ++ Added predicate (objects_of binding.now terms.now) ∷ []) }
{
    let objects = ground(*deeds.allocator(), terms, binding)?;
    deeds.push(Deed::Added(Atom { predicate, objects }))?;
    Ok(())
}

pub(crate) fn note_deleted(
    predicate: u16,
    terms: &[Term],
    binding: &[u16],
    deeds: &mut Vec<Deed>,
) -> Result<(), Memory>
    ensures { OnOk result (changes_in deeds.new.items ≡ changes_in deeds.old.items ++ Deleted predicate (objects_of binding.now terms.now) ∷ []) }
{
    let objects = ground(*deeds.allocator(), terms, binding)?;
    deeds.push(Deed::Deleted(Atom { predicate, objects }))?;
    Ok(())
}

pub(crate) fn note_changed(
    op: Op,
    function: u16,
    terms: &[Term],
    value: Option<Frac>,
    binding: &[u16],
    deeds: &mut Vec<Deed>,
) -> Result<(), Memory>
    ensures { OnOk result (changes_in deeds.new.items ≡ changes_in deeds.old.items ++ Changed op function (objects_of binding.now terms.now) value ∷ []) }
{
    let objects = ground(*deeds.allocator(), terms, binding)?;
    let cell = Cell { function, objects };
    deeds.push(Deed::Changed { op, cell, value })?;
    Ok(())
}

// The objects that the terms stand for.
fn ground(alloc: Global, terms: &[Term], binding: &[u16]) -> Result<List<u16>, Memory>
    ensures { IfOk result (λ objects. objects ≡ objects_of binding.now terms.now) }
{
    let mut objects = Vec::new(alloc);
    for term in terms {
        objects.push(object_at(binding, *term))?;
    }
    Ok(List::from_vec(objects))
}

//! The sets of the limit closure, kept by atoms and terms.
ghost use Rattle.mf_limit.specs.Sets.{HasSizesOf, IsFirst, family_of, first_atom, first_term};
ghost use Rattle.mf_limit.specs.Growth.{Fits, Grows, gain_of};
ghost use Rattle.mf_task.specs.LimitClosure.{atom_may};
ghost use Rattle.mf_task.specs.Rows.{IsRowOf, sight_of};
ghost use Rattle.std.specs.List.{range_with_len};
ghost use Rattle.std.specs.Prelude.{◌≡◌, ◌∷◌, [], true, not, ◌/◌, ◌+◌, ◌≤◌, IfOk, length, map};

use crate::scene::Scene;
use mf_store::Row;
use mf_task::Memory;
use std::alloc::Global;

/// What may become of an atom.
#[derive(Clone, Copy, Debug)]
pub(crate) struct AtomChance {
    pub(crate) may_be_true: bool,
    pub(crate) may_be_false: bool,
}

/// What may become of a term.
#[derive(Clone, Copy, Debug)]
pub(crate) struct TermChance {
    pub(crate) may_rise: bool,
    pub(crate) may_fall: bool,
    pub(crate) may_be_defined: bool,
}

/// One thing that an effect may bring about.
#[derive(Clone, Copy, Debug)]
pub(crate) enum Gain {
    MayBeTrue { atom: u32 },
    MayBeFalse { atom: u32 },
    MayRise { term: u32 },
    MayFall { term: u32 },
    MayBeDefined { term: u32 },
}

/// The chances of all atoms and terms of a task, by their numbers. Other atoms are false, and other terms undefined.
#[derive(Debug, Drop)]
pub(crate) struct LimitSets {
    pub(crate) atoms: Vec<AtomChance>,
    pub(crate) terms: Vec<TermChance>,
}

impl LimitSets {
    /// What is so at the row.
    pub(crate) fn first(alloc: Global, scene: &Scene<'_>) -> Result<LimitSets, Memory>
        requires { IsRowOf scene.now.task.now scene.now.row.now }
        ensures sizes { IfOk result (λ sets. HasSizesOf scene.now.task.now sets) }
        ensures first { IfOk result (λ sets. IsFirst (sight_of scene.now.row.now) sets) }
    {
        let atoms = first_atoms(alloc, scene.row, scene.task.atoms.len())?;
        let terms = first_terms(alloc, scene.row)?;
        Ok(LimitSets { atoms, terms })
    }

    /// Whether the atom may be true, or false where that is asked.
    pub(crate) fn atom_may_be(&self, atom: u32, asked: bool) -> bool
        ensures { result ≡ atom_may (family_of self.now) atom asked }
    {
        let chance = match self.atoms.get(atom as usize) {
            Some(chance) => *chance,
            None => AtomChance {
                may_be_true: false,
                may_be_false: true,
            },
        };
        if asked {
            chance.may_be_true
        } else {
            chance.may_be_false
        }
    }

    /// What may become of the term.
    pub(crate) fn term(&self, term: u32) -> TermChance
        ensures rise { result.may_rise ≡ (family_of self.now).up term }
        ensures fall { result.may_fall ≡ (family_of self.now).down term }
        ensures defined { result.may_be_defined ≡ (family_of self.now).defined term }
    {
        match self.terms.get(term as usize) {
            Some(chance) => *chance,
            None => TermChance {
                may_rise: false,
                may_fall: false,
                may_be_defined: false,
            },
        }
    }

    /// Adds a gain, and says whether it is new.
    pub(crate) fn add(&mut self, gain: Gain) -> bool
        requires { Fits self.old gain }
        ensures { Grows self.old self.new (λ family. gain_of gain ∷ []) result }
    {
        match gain {
            Gain::MayBeTrue { atom } => set_flag(&mut self.atoms[atom as usize].may_be_true),
            Gain::MayBeFalse { atom } => set_flag(&mut self.atoms[atom as usize].may_be_false),
            Gain::MayRise { term } => set_flag(&mut self.terms[term as usize].may_rise),
            Gain::MayFall { term } => set_flag(&mut self.terms[term as usize].may_fall),
            Gain::MayBeDefined { term } => set_flag(&mut self.terms[term as usize].may_be_defined),
        }
    }
}

// Sets the flag, and says whether it was unset.
fn set_flag(flag: &mut bool) -> bool
    ensures flag { flag.new ≡ true }
    ensures new { result ≡ not flag.old }
{
    let is_new = !*flag;
    *flag = true;
    is_new
}

fn first_atoms(alloc: Global, row: &Row, count: usize) -> Result<Vec<AtomChance>, Memory>
    requires { (count + 63) / 64 ≤ length row.now.bits }
    ensures { IfOk result (λ atoms. atoms.items ≡ map (first_atom (sight_of row.now)) (range_with_len 0 count)) }
{
    let mut atoms = Vec::with_capacity(alloc, count)?;
    for atom in 0..count {
        let holds = row.bit(atom);
        atoms.push_reserved(AtomChance {
            may_be_true: holds,
            may_be_false: !holds,
        });
    }
    Ok(atoms)
}

fn first_terms(alloc: Global, row: &Row) -> Result<Vec<TermChance>, Memory>
    ensures { IfOk result (λ terms. terms.items ≡ map first_term row.now.values) }
{
    let values = row.values();
    let mut terms = Vec::with_capacity(alloc, values.len())?;
    for value in values {
        terms.push_reserved(TermChance {
            may_rise: false,
            may_fall: false,
            may_be_defined: value.is_some(),
        });
    }
    Ok(terms)
}

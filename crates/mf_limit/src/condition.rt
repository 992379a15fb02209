//! Whether conditions may hold or fail in the limit closure.
ghost use Rattle.mf_limit.specs.Chances.{may_relate};
ghost use Rattle.mf_limit.specs.Sets.{family_of};
ghost use Rattle.mf_task.specs.GroundMeaning.{relates};
ghost use Rattle.mf_task.specs.LimitClosure.{agrees_with, all_may, any_may, may_be, may_hold};
ghost use Rattle.mf_task.specs.Rows.{sight_of};
ghost use Rattle.std.specs.List.{list_all, list_any};
ghost use Rattle.std.specs.Prelude.{◌≡◌, map};

use crate::chance::{FormChance, chance_of_number};
use crate::scene::Scene;
use crate::sets::LimitSets;
use mf_model::Relation;
use mf_task::GroundCond;
use std::cmp::Ordering;

/// Whether the condition may hold.
pub(crate) fn may_hold(scene: &Scene<'_>, sets: &LimitSets, condition: &GroundCond) -> bool
    ensures { result ≡ may_hold scene.now.task.now (sight_of scene.now.row.now) (family_of sets.now) condition.now }
{
    may_be(scene, sets, condition, true)
}

/// Whether each of the conditions may hold.
pub(crate) fn may_all_hold(scene: &Scene<'_>, sets: &LimitSets, conditions: &[GroundCond]) -> bool
    ensures { result ≡ list_all (may_hold scene.now.task.now (sight_of scene.now.row.now) (family_of sets.now)) conditions.now }
{
    for condition in conditions {
        if !may_hold(scene, sets, condition) {
            return false;
        }
    }
    true
}

// Whether the condition may hold, or fail where that is asked.
#[cycle(may_be)]
fn may_be(scene: &Scene<'_>, sets: &LimitSets, condition: &GroundCond, asked: bool) -> bool
    ensures { result ≡ may_be scene.now.task.now (sight_of scene.now.row.now) (family_of sets.now) condition.now asked }
{
    match condition {
        GroundCond::Fact { holds } => agrees_with(asked, *holds),
        GroundCond::Neither => false,
        GroundCond::Atom { atom } => sets.atom_may_be(*atom, asked),
        GroundCond::Compare { relation, form } => {
            let chance = chance_of_number(scene, sets, *form);
            may_relate(*relation, &chance, asked)
        }
        GroundCond::Not { part } => may_be(scene, sets, part.get(), !asked),
        GroundCond::And { parts } => all_may(scene, sets, parts.as_slice(), asked),
        GroundCond::Or { parts } => any_may(scene, sets, parts.as_slice(), asked),
    }
}

// Whether all parts may hold, or some part may fail where that is asked.
#[cycle(may_be)]
fn all_may(scene: &Scene<'_>, sets: &LimitSets, parts: &[GroundCond], asked: bool) -> bool
    ensures { result ≡ all_may (map (may_be scene.now.task.now (sight_of scene.now.row.now) (family_of sets.now)) parts.now) asked }
{
    if asked {
        each_may_be(scene, sets, parts, true)
    } else {
        some_may_be(scene, sets, parts, false)
    }
}

// Whether some part may hold, or all parts may fail where that is asked.
#[cycle(may_be)]
fn any_may(scene: &Scene<'_>, sets: &LimitSets, parts: &[GroundCond], asked: bool) -> bool
    ensures { result ≡ any_may (map (may_be scene.now.task.now (sight_of scene.now.row.now) (family_of sets.now)) parts.now) asked }
{
    if asked {
        some_may_be(scene, sets, parts, true)
    } else {
        each_may_be(scene, sets, parts, false)
    }
}

#[cycle(may_be)]
fn each_may_be(scene: &Scene<'_>, sets: &LimitSets, parts: &[GroundCond], asked: bool) -> bool
    ensures { result ≡ list_all (λ part. part asked) (map (may_be scene.now.task.now (sight_of scene.now.row.now) (family_of sets.now)) parts.now) }
{
    for part in parts {
        if !may_be(scene, sets, part, asked) {
            return false;
        }
    }
    true
}

#[cycle(may_be)]
fn some_may_be(scene: &Scene<'_>, sets: &LimitSets, parts: &[GroundCond], asked: bool) -> bool
    ensures { result ≡ list_any (λ part. part asked) (map (may_be scene.now.task.now (sight_of scene.now.row.now) (family_of sets.now)) parts.now) }
{
    for part in parts {
        if may_be(scene, sets, part, asked) {
            return true;
        }
    }
    false
}

// Whether a form may stand in the relation to 0, or may not do so where that is asked.
fn may_relate(relation: Relation, chance: &FormChance, asked: bool) -> bool
    ensures { result ≡ may_relate relation chance.now asked }
{
    let less = agrees_with(asked, relates(relation, Ordering::Less));
    let equal = agrees_with(asked, relates(relation, Ordering::Equal));
    let greater = agrees_with(asked, relates(relation, Ordering::Greater));
    (less && chance.may_have(Ordering::Less))
        || (equal && chance.may_have(Ordering::Equal))
        || (greater && chance.may_have(Ordering::Greater))
}

// Whether a number of this sign stands in the relation to 0.
fn relates(relation: Relation, sign: Ordering) -> bool
    ensures { result ≡ relates relation sign }
{
    match relation {
        Relation::Less => sign == Ordering::Less,
        Relation::AtMost => sign != Ordering::Greater,
        Relation::Equal => sign == Ordering::Equal,
        Relation::AtLeast => sign != Ordering::Less,
        Relation::More => sign == Ordering::Greater,
    }
}

fn agrees_with(asked: bool, holds: bool) -> bool
    ensures { result ≡ agrees_with asked holds }
{
    if asked { holds } else { !holds }
}

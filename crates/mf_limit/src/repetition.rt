//! The limit closure, round by round: a slow body, which looks at each action in each round.
ghost use Rattle.mf_limit.specs.Growth.{Grows};
ghost use Rattle.mf_task.specs.NumberedTasks.{is_numbered, is_numbered_action, is_numbered_change};
ghost use Rattle.mf_limit.specs.Sets.{HasSizesOf, IsFirst, IsLimit};
ghost use Rattle.mf_task.specs.LimitClosure.{action_gains, effect_gains};
ghost use Rattle.mf_task.specs.Rows.{IsRowOf, sight_of};
ghost use Rattle.std.specs.List.{flat_map, list_all};
ghost use Rattle.std.specs.Prelude.{◌≡◌, IfOk, true};

use crate::condition::may_hold;
use crate::gains::add_change;
use crate::scene::Scene;
use crate::sets::LimitSets;
use mf_task::{GroundAction, GroundEffect, Memory};
use std::alloc::Global;

/// The sets of the limit closure.
pub(crate) fn limit_sets(alloc: Global, scene: &Scene<'_>) -> Result<LimitSets, Memory>
    requires shape { IsRowOf scene.now.task.now scene.now.row.now }
    requires numbered { is_numbered scene.now.task.now ≡ true }
    ensures { IfOk result (λ sets. IsLimit scene.now.task.now (sight_of scene.now.row.now) sets) }
{
    let mut sets = LimitSets::first(alloc, scene)?;
    close(scene, &mut sets);
    Ok(sets)
}

// Adds rounds until one adds nothing new. Each round before adds one of two chances of an atom, or of three of a term.
fn close(scene: &Scene<'_>, sets: &mut LimitSets)
    requires sizes { HasSizesOf scene.now.task.now sets.old }
    requires numbered { is_numbered scene.now.task.now ≡ true }
    requires first { IsFirst (sight_of scene.now.row.now) sets.old }
    ensures { IsLimit scene.now.task.now (sight_of scene.now.row.now) sets.new }
{
    let atoms = scene.task.atoms.len() as u128;
    let terms = scene.task.terms.len() as u128;
    for _round in 0..2 * atoms + 3 * terms + 1 {
        if !add_round(scene, sets) {
            return;
        }
    }
}

// Adds what the actions give whose preconditions may hold, and says whether something is new.
fn add_round(scene: &Scene<'_>, sets: &mut LimitSets) -> bool
    requires sizes { HasSizesOf scene.now.task.now sets.old }
    requires numbered { is_numbered scene.now.task.now ≡ true }
    ensures { Grows sets.old sets.new (λ family. flat_map (action_gains scene.now.task.now (sight_of scene.now.row.now) family) scene.now.task.now.actions) result }
{
    add_actions(scene, sets, scene.task.actions.as_slice())
}

fn add_actions(scene: &Scene<'_>, sets: &mut LimitSets, actions: &[GroundAction]) -> bool
    requires sizes { HasSizesOf scene.now.task.now sets.old }
    requires numbered { list_all (is_numbered_action scene.now.task.now) actions.now ≡ true }
    ensures { Grows sets.old sets.new (λ family. flat_map (action_gains scene.now.task.now (sight_of scene.now.row.now) family) actions.now) result }
{
    let mut is_new = false;
    for action in actions {
        is_new |= add_action(scene, sets, action);
    }
    is_new
}

fn add_action(scene: &Scene<'_>, sets: &mut LimitSets, action: &GroundAction) -> bool
    requires sizes { HasSizesOf scene.now.task.now sets.old }
    requires numbered { is_numbered_action scene.now.task.now action.now ≡ true }
    ensures { Grows sets.old sets.new (λ family. action_gains scene.now.task.now (sight_of scene.now.row.now) family action.now) result }
{
    if may_hold(scene, sets, &action.condition) {
        add_effects(scene, sets, action.effects.as_slice())
    } else {
        false
    }
}

fn add_effects(scene: &Scene<'_>, sets: &mut LimitSets, effects: &[GroundEffect]) -> bool
    requires sizes { HasSizesOf scene.now.task.now sets.old }
    requires numbered { list_all (λ effect. is_numbered_change scene.now.task.now effect.change) effects.now ≡ true }
    ensures { Grows sets.old sets.new (λ family. flat_map (effect_gains scene.now.task.now (sight_of scene.now.row.now) family) effects.now) result }
{
    let mut is_new = false;
    for effect in effects {
        is_new |= add_effect(scene, sets, effect);
    }
    is_new
}

fn add_effect(scene: &Scene<'_>, sets: &mut LimitSets, effect: &GroundEffect) -> bool
    requires sizes { HasSizesOf scene.now.task.now sets.old }
    requires numbered { is_numbered_change scene.now.task.now effect.now.change ≡ true }
    ensures { Grows sets.old sets.new (λ family. effect_gains scene.now.task.now (sight_of scene.now.row.now) family effect.now) result }
{
    if may_hold(scene, sets, &effect.condition) {
        add_change(scene, sets, &effect.change)
    } else {
        false
    }
}

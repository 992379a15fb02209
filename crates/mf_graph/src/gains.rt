ghost use Rattle.mf_graph.specs.Gained.{no_gains, with_action, with_change, with_counting, with_effect};
ghost use Rattle.mf_graph.specs.LayerLists.{shown};
ghost use Rattle.std.specs.List.{fold};
ghost use Rattle.std.specs.Prelude.{◌≡◌, IfOk, OnOk};

use crate::counting::counting_of;
use crate::level::level;
use crate::{Counting, Layer, Levels};
use mf_fraction::Memory;
use mf_model::List;
use mf_task::{GroundAction, GroundChange, GroundEffect, Task};
use std::alloc::Global;

/// A change that counts, and its term.
#[derive(Clone, Copy, Debug)]
pub struct Counted {
    pub term: u32,
    pub counting: Counting,
}

/// What the effects that fire at a layer do, in instance and effect order: the atoms that they add and delete, and their
/// numeric changes that count.
#[derive(Debug, Drop)]
pub struct Gains {
    pub adds: List<u32>,
    pub deletes: List<u32>,
    pub counted: List<Counted>,
}

// What the effects that fire at the layer do.
pub(crate) fn gains_of(
    alloc: Global,
    task: &Task,
    levels: &Levels,
    layer: &Layer,
) -> Result<Gains, Memory>
    ensures { IfOk result (λ gains. gains ≡ fold (with_action task.now levels.now (shown layer.now)) no_gains task.now.actions) }
{
    let mut gains = Gains {
        adds: List::new(alloc),
        deletes: List::new(alloc),
        counted: List::new(alloc),
    };
    for action in task.actions.as_slice() {
        gain_action(&mut gains, task, levels, layer, action)?;
    }
    Ok(gains)
}

fn gain_action(
    gains: &mut Gains,
    task: &Task,
    levels: &Levels,
    layer: &Layer,
    action: &GroundAction,
) -> Result<(), Memory>
    ensures { OnOk result (gains.new ≡ with_action task.now levels.now (shown layer.now) gains.old action.now) }
{
    if level(levels, &action.condition, true).is_none() {
        return Ok(());
    }
    gain_effects(gains, task, levels, layer, action.effects.as_slice())
}

fn gain_effects(
    gains: &mut Gains,
    task: &Task,
    levels: &Levels,
    layer: &Layer,
    effects: &[GroundEffect],
) -> Result<(), Memory>
    ensures { OnOk result (gains.new ≡ fold (with_effect task.now levels.now (shown layer.now)) gains.old effects.now) }
{
    for effect in effects {
        gain_effect(gains, task, levels, layer, effect)?;
    }
    Ok(())
}

fn gain_effect(
    gains: &mut Gains,
    task: &Task,
    levels: &Levels,
    layer: &Layer,
    effect: &GroundEffect,
) -> Result<(), Memory>
    ensures { OnOk result (gains.new ≡ with_effect task.now levels.now (shown layer.now) gains.old effect.now) }
{
    if level(levels, &effect.condition, true).is_none() {
        return Ok(());
    }
    gain_change(gains, task, layer, &effect.change)
}

fn gain_change(
    gains: &mut Gains,
    task: &Task,
    layer: &Layer,
    change: &GroundChange,
) -> Result<(), Memory>
    ensures { OnOk result (gains.new ≡ with_change task.now (shown layer.now) gains.old change.now) }
{
    match change {
        GroundChange::Add { atom } => gains.adds.push(*atom)?,
        GroundChange::Delete { atom } => gains.deletes.push(*atom)?,
        GroundChange::Number { op, term, value } => {
            gain_counting(gains, *term, counting_of(task, layer, *op, *term, *value))?
        }
        GroundChange::Cost { .. } => (),
        GroundChange::Nothing => (),
    }
    Ok(())
}

fn gain_counting(gains: &mut Gains, term: u32, counting: Option<Counting>) -> Result<(), Memory>
    ensures { OnOk result (gains.new ≡ with_counting gains.old term counting) }
{
    if let Some(counting) = counting {
        gains.counted.push(Counted { term, counting })?;
    }
    Ok(())
}

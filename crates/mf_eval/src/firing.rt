ghost use Rattle.mf_eval.specs.Fired.{changes_in, fired, fired_each, fired_parts, fired_when, fired_with, threaded};
ghost use Rattle.mf_eval.specs.Outcome.{Reads};
ghost use Rattle.mf_meaning.specs.SortedStates.{IsSortedState};
ghost use Rattle.mf_model.specs.VariableScopes.{effect_scope_of, scope_of};
ghost use Rattle.mf_model.specs.Trees.{greatest};
ghost use Rattle.mf_model.specs.Objects.{having, kinds_of};
ghost use Rattle.mf_model.specs.States.{look_of};
ghost use Rattle.smallvec.specs.SmallVec.{HasRoomFor};
ghost use Rattle.std.specs.Prelude.{◌≡◌, ◌+◌, ◌≤◌, length, map, max};

use crate::condition::is_met;
use crate::deed::{Deed, note_added, note_changed, note_deleted};
use crate::expression::evaluate;
use crate::fault::ApplyFault;
use crate::kinds::has_some_type;
use crate::scene::Scene;
use mf_model::{Cond, Effect, Types};
use smallvec::SmallVec;

// Adds what the effect does under the binding, in the order of the text.
#[cycle(fire)]
pub(crate) fn fire(
    scene: &Scene<'_>,
    effect: &Effect,
    binding: &mut SmallVec<u16, 64>,
    deeds: &mut Vec<Deed>,
) -> Result<(), ApplyFault>
    requires sorted { IsSortedState scene.now.state.now }
    requires objects { length scene.now.task.now.objects ≤ 65535 }
    requires room { HasRoomFor binding.old (effect_scope_of effect.now) }
    requires few { effect_scope_of effect.now ≤ 64 }
    ensures value { Reads
        (fired (kinds_of scene.now.task.now) (look_of scene.now.state.now) effect.now binding.old.items (changes_in deeds.old.items))
        result (changes_in deeds.new.items) }
    ensures same { binding.new ≡ binding.old }
{
    match effect {
        Effect::Add { predicate, terms } => {
            Ok(note_added(*predicate, terms.as_slice(), binding.as_slice(), deeds)?)
        }
        Effect::Delete { predicate, terms } => {
            Ok(note_deleted(*predicate, terms.as_slice(), binding.as_slice(), deeds)?)
        }
        Effect::Change {
            op,
            function,
            terms,
            value,
        } => {
            let (terms, binding) = (terms.as_slice(), binding.as_slice());
            let value = evaluate(value, binding, scene.state, 0)?;
            Ok(note_changed(*op, *function, terms, value, binding, deeds)?)
        }
        Effect::Group { parts } => fire_parts(scene, parts.as_slice(), binding, deeds),
        Effect::Each { variables, part } => {
            fire_each(scene, variables.as_slice(), part.get(), binding, deeds)
        }
        Effect::When { condition, part } => fire_when(scene, part.get(), condition, binding, deeds),
    }
}

// The part, where the condition holds.
#[cycle(fire)]
fn fire_when(
    scene: &Scene<'_>,
    part: &Effect,
    condition: &Cond,
    binding: &mut SmallVec<u16, 64>,
    deeds: &mut Vec<Deed>,
) -> Result<(), ApplyFault>
    requires sorted { IsSortedState scene.now.state.now }
    requires objects { length scene.now.task.now.objects ≤ 65535 }
    requires room { HasRoomFor binding.old (max (scope_of condition.now) (effect_scope_of part.now)) }
    requires few { max (scope_of condition.now) (effect_scope_of part.now) ≤ 64 }
    ensures value { Reads
        (fired_when (kinds_of scene.now.task.now) (look_of scene.now.state.now) condition.now
        (fired (kinds_of scene.now.task.now) (look_of scene.now.state.now) part.now) binding.old.items (changes_in deeds.old.items))
        result (changes_in deeds.new.items) }
    ensures same { binding.new ≡ binding.old }
{
    if is_met(scene, condition, binding)? {
        return fire(scene, part, binding, deeds);
    }
    Ok(())
}

#[cycle(fire)]
fn fire_parts(
    scene: &Scene<'_>,
    parts: &[Effect],
    binding: &mut SmallVec<u16, 64>,
    deeds: &mut Vec<Deed>,
) -> Result<(), ApplyFault>
    requires sorted { IsSortedState scene.now.state.now }
    requires objects { length scene.now.task.now.objects ≤ 65535 }
    requires room { HasRoomFor binding.old (greatest (map effect_scope_of parts.now)) }
    requires few { greatest (map effect_scope_of parts.now) ≤ 64 }
    ensures value { Reads
        (threaded (fired_parts (kinds_of scene.now.task.now) (look_of scene.now.state.now) parts.now binding.old.items) (changes_in deeds.old.items))
        result (changes_in deeds.new.items) }
    ensures same { binding.new ≡ binding.old }
{
    for part in parts {
        fire(scene, part, binding, deeds)?;
    }
    Ok(())
}

// The part under each binding of the variables.
#[cycle(fire)]
fn fire_each(
    scene: &Scene<'_>,
    variables: &[Types],
    part: &Effect,
    binding: &mut SmallVec<u16, 64>,
    deeds: &mut Vec<Deed>,
) -> Result<(), ApplyFault>
    requires sorted { IsSortedState scene.now.state.now }
    requires objects { length scene.now.task.now.objects ≤ 65535 }
    requires room { HasRoomFor binding.old (length variables.now + effect_scope_of part.now) }
    requires few { length variables.now + effect_scope_of part.now ≤ 64 }
    ensures value { Reads
        (fired_each (kinds_of scene.now.task.now) (fired (kinds_of scene.now.task.now) (look_of scene.now.state.now) part.now)
        variables.now binding.old.items (changes_in deeds.old.items))
        result (changes_in deeds.new.items) }
    ensures same { binding.new ≡ binding.old }
{
    let Some((types, others)) = variables.split_first() else {
        return fire(scene, part, binding, deeds);
    };
    fire_objects(scene, types.as_slice(), others, part, binding, deeds)
}

// The part for each object of the types, under each binding of the other variables.
#[cycle(fire)]
fn fire_objects(
    scene: &Scene<'_>,
    types: &[u16],
    others: &[Types],
    part: &Effect,
    binding: &mut SmallVec<u16, 64>,
    deeds: &mut Vec<Deed>,
) -> Result<(), ApplyFault>
    requires sorted { IsSortedState scene.now.state.now }
    requires objects { length scene.now.task.now.objects ≤ 65535 }
    requires room { HasRoomFor binding.old (1 + length others.now + effect_scope_of part.now) }
    requires few { 1 + length others.now + effect_scope_of part.now ≤ 64 }
    ensures value { Reads
        (threaded (map (fired_with (kinds_of scene.now.task.now) (fired (kinds_of scene.now.task.now) (look_of scene.now.state.now) part.now)
        others.now binding.old.items) (having types.now 0 (kinds_of scene.now.task.now))) (changes_in deeds.old.items))
        result (changes_in deeds.new.items) }
    ensures same { binding.new ≡ binding.old }
{
    for (number, object) in scene.task.objects.as_slice().iter().enumerate() {
        if has_some_type(scene.task, object, types) {
            fire_object(scene, number as u16, others, part, binding, deeds)?;
        }
    }
    Ok(())
}

// The part with this object, under each binding of the other variables.
#[cycle(fire)]
fn fire_object(
    scene: &Scene<'_>,
    object: u16,
    others: &[Types],
    part: &Effect,
    binding: &mut SmallVec<u16, 64>,
    deeds: &mut Vec<Deed>,
) -> Result<(), ApplyFault>
    requires sorted { IsSortedState scene.now.state.now }
    requires objects { length scene.now.task.now.objects ≤ 65535 }
    requires room { HasRoomFor binding.old (1 + length others.now + effect_scope_of part.now) }
    requires few { 1 + length others.now + effect_scope_of part.now ≤ 64 }
    ensures value { Reads
        (fired_with (kinds_of scene.now.task.now) (fired (kinds_of scene.now.task.now) (look_of scene.now.state.now) part.now)
        others.now binding.old.items object (changes_in deeds.old.items))
        result (changes_in deeds.new.items) }
    ensures same { binding.new ≡ binding.old }
{
    binding.push_reserved(object);
    let done = fire_each(scene, others, part, binding, deeds);
    binding.pop();
    done
}

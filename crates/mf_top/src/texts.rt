ghost use Rattle.std.specs.Prelude.{◌≡◌, ◌++◌, OnOk, IfOk};
ghost use Rattle.std.specs.List.{flat_map};
ghost use Rattle.std.specs.Fmt.{decimal};
ghost use Rattle.mf_top.specs.Texts.{action_name, object_name, object_text, step_text, plan_text, instances_text, budget_text, place_text, refusal_text, unread_text, too_long_text};

use crate::kinds::kind_text;
use mf_input::Refusal;
use mf_io::Memory;
use mf_model::{Action, Instance, Object, Text, TypedTask};
use std::alloc::Global;

fn object_name(objects: &[Object], number: u16) -> &[u8]
    ensures { result.now ≡ object_name objects.entry.now number }
{
    match objects.get(usize::from(number)) {
        Some(object) => object.name.as_slice(),
        None => &[],
    }
}

fn action_name(actions: &[Action], number: u16) -> &[u8]
    ensures { result.now ≡ action_name actions.entry.now number }
{
    match actions.get(usize::from(number)) {
        Some(action) => action.name.as_slice(),
        None => &[],
    }
}

pub(crate) fn write_number(alloc: Global, number: u64, text: &mut Text) -> Result<(), Memory>
    ensures { OnOk result (text.new ≡ text.old ++ decimal number) }
{
    let digits = number.to_string(alloc)?;
    text.extend(digits.as_bytes())?;
    Ok(())
}

fn write_object(objects: &[Object], number: u16, text: &mut Text) -> Result<(), Memory>
    ensures { OnOk result (text.new ≡ text.old ++ object_text objects.now number) }
{
    text.push(b' ')?;
    text.extend(object_name(objects, number))?;
    Ok(())
}

fn write_objects(objects: &[Object], numbers: &[u16], text: &mut Text) -> Result<(), Memory>
    ensures { OnOk result (text.new ≡ text.old ++ flat_map (object_text objects.now) numbers.now) }
{
    for number in numbers {
        write_object(objects, *number, text)?;
    }
    Ok(())
}

fn write_step(task: &TypedTask, step: &Instance, text: &mut Text) -> Result<(), Memory>
    ensures { OnOk result (text.new ≡ text.old ++ step_text task.now step.now) }
{
    text.push(b'(')?;
    text.extend(action_name(task.actions.as_slice(), step.action))?;
    write_objects(task.objects.as_slice(), step.objects.as_slice(), text)?;
    text.extend(b")\n")?;
    Ok(())
}

fn write_steps(task: &TypedTask, steps: &[Instance], text: &mut Text) -> Result<(), Memory>
    ensures { OnOk result (text.new ≡ text.old ++ flat_map (step_text task.now) steps.now) }
{
    for step in steps {
        write_step(task, step, text)?;
    }
    Ok(())
}

/// A line per step, and then their number.
pub(crate) fn plan_text(alloc: Global, task: &TypedTask, steps: &[Instance]) -> Result<Text, Memory>
    ensures { IfOk result (λ text. text ≡ plan_text task.now steps.now) }
{
    let mut text = Text::new(alloc);
    write_steps(task, steps, &mut text)?;
    text.extend(b"; steps ")?;
    write_number(alloc, steps.len() as u64, &mut text)?;
    text.push(b'\n')?;
    Ok(text)
}

/// A line per instance, and then their number and that of nodes.
pub(crate) fn instances_text(
    alloc: Global,
    task: &TypedTask,
    instances: &[Instance],
    nodes: u64,
) -> Result<Text, Memory>
    ensures { IfOk result (λ text. text ≡ instances_text task.now instances.now nodes) }
{
    let mut text = Text::new(alloc);
    write_steps(task, instances, &mut text)?;
    text.extend(b"; instances ")?;
    write_number(alloc, instances.len() as u64, &mut text)?;
    text.extend(b", nodes ")?;
    write_number(alloc, nodes, &mut text)?;
    text.push(b'\n')?;
    Ok(text)
}

pub(crate) fn budget_text(alloc: Global, expansions: u64) -> Result<Text, Memory>
    ensures { IfOk result (λ text. text ≡ budget_text expansions) }
{
    let mut text = Text::from_slice(alloc, b"budget reached after ")?;
    write_number(alloc, expansions, &mut text)?;
    text.extend(b" expansions\n")?;
    Ok(text)
}

/// A line `NAME:AT: KIND`, for a place in a file.
pub(crate) fn place_text(alloc: Global, name: &[u8], at: u32, kind: &[u8]) -> Result<Text, Memory>
    ensures { IfOk result (λ text. text ≡ place_text name.now at kind.now) }
{
    let mut text = Text::from_slice(alloc, name)?;
    text.push(b':')?;
    write_number(alloc, u64::from(at), &mut text)?;
    text.extend(b": ")?;
    text.extend(kind)?;
    text.push(b'\n')?;
    Ok(text)
}

/// The place and the kind of a refusal of the file of this name.
pub(crate) fn refusal_text(alloc: Global, name: &[u8], refusal: &Refusal) -> Result<Text, Memory>
    ensures { IfOk result (λ text. text ≡ refusal_text name.now refusal.now) }
{
    place_text(alloc, name, refusal.at, kind_text(refusal.kind))
}

fn join(alloc: Global, first: &[u8], second: &[u8], third: &[u8]) -> Result<Text, Memory>
    ensures { IfOk result (λ text. text ≡ first.now ++ second.now ++ third.now) }
{
    let mut text = Text::from_slice(alloc, first)?;
    text.extend(second)?;
    text.extend(third)?;
    Ok(text)
}

pub(crate) fn unread_text(alloc: Global, name: &[u8]) -> Result<Text, Memory>
    ensures { IfOk result (λ text. text ≡ unread_text name.now) }
{
    join(alloc, b"cannot read ", name, b"\n")
}

pub(crate) fn too_long_text(alloc: Global, name: &[u8]) -> Result<Text, Memory>
    ensures { IfOk result (λ text. text ≡ too_long_text name.now) }
{
    join(alloc, b"", name, b": longer than 16777216 bytes\n")
}

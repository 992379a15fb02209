ghost use Rattle.mf_ground.specs.Nodes.{effect_nodes_of, instance_nodes, nodes_of, ways};
ghost use Rattle.mf_ground.specs.Saturated.{saturated};
ghost use Rattle.mf_model.specs.Objects.{having, kinds_of};
ghost use Rattle.std.specs.Prelude.{◌≡◌, ◌+◌, ◌*◌, ◌≤◌, length, map, sum};

use crate::kinds::has_some_type;
use mf_model::{Action, Cond, Effect, TypedTask, Types};

/// The nodes of one instance of an action, or the greatest number where they are more.
pub(crate) fn nodes_of_instance(task: &TypedTask, action: &Action) -> u64
    requires { length task.now.objects ≤ 65535 }
    ensures { result ≡ saturated (instance_nodes (kinds_of task.now) action.now) }
{
    let condition = nodes_of_condition(task, &action.condition);
    condition.saturating_add(nodes_of_effect(task, &action.effect))
}

/// The nodes of a condition, or the greatest number where they are more.
#[cycle(nodes_of_condition)]
pub(crate) fn nodes_of_condition(task: &TypedTask, condition: &Cond) -> u64
    requires { length task.now.objects ≤ 65535 }
    ensures { result ≡ saturated (nodes_of (kinds_of task.now) condition.now) }
{
    match condition {
        Cond::Atom { .. } => 1,
        Cond::Same { .. } => 1,
        Cond::Compare { .. } => 1,
        Cond::Not { part } => nodes_of_condition(task, part.get()).saturating_add(1),
        Cond::And { parts } => nodes_of_parts(task, parts.as_slice()).saturating_add(1),
        Cond::Or { parts } => nodes_of_parts(task, parts.as_slice()).saturating_add(1),
        Cond::Imply { left, right } => {
            let left = nodes_of_condition(task, left.get());
            let right = nodes_of_condition(task, right.get());
            left.saturating_add(right).saturating_add(1)
        }
        Cond::All { variables, part } => nodes_of_quantifier(
            task,
            variables.as_slice(),
            part.get(),
        ),
        Cond::Any { variables, part } => nodes_of_quantifier(
            task,
            variables.as_slice(),
            part.get(),
        ),
    }
}

#[cycle(nodes_of_condition)]
fn nodes_of_quantifier(task: &TypedTask, variables: &[Types], part: &Cond) -> u64
    requires { length task.now.objects ≤ 65535 }
    ensures { result ≡ saturated (1 + ways (kinds_of task.now) variables.now * nodes_of (kinds_of task.now) part.now) }
{
    let bindings = number_of_bindings(task, variables);
    bindings
        .saturating_mul(nodes_of_condition(task, part))
        .saturating_add(1)
}

#[cycle(nodes_of_condition)]
fn nodes_of_parts(task: &TypedTask, parts: &[Cond]) -> u64
    requires { length task.now.objects ≤ 65535 }
    ensures { result ≡ saturated (sum (map (nodes_of (kinds_of task.now)) parts.now)) }
{
    let mut nodes = 0u64;
    for part in parts {
        nodes = nodes.saturating_add(nodes_of_condition(task, part));
    }
    nodes
}

#[cycle(nodes_of_effect)]
fn nodes_of_effect(task: &TypedTask, effect: &Effect) -> u64
    requires { length task.now.objects ≤ 65535 }
    ensures { result ≡ saturated (effect_nodes_of (kinds_of task.now) effect.now) }
{
    match effect {
        Effect::Add { .. } => 1,
        Effect::Delete { .. } => 1,
        Effect::Change { .. } => 1,
        Effect::Group { parts } => nodes_of_effects(task, parts.as_slice()),
        Effect::Each { variables, part } => nodes_of_each(task, variables.as_slice(), part.get()),
        Effect::When { condition, part } => {
            let condition = nodes_of_condition(task, condition);
            condition.saturating_add(nodes_of_effect(task, part.get()))
        }
    }
}

#[cycle(nodes_of_effect)]
fn nodes_of_each(task: &TypedTask, variables: &[Types], part: &Effect) -> u64
    requires { length task.now.objects ≤ 65535 }
    ensures { result ≡ saturated (ways (kinds_of task.now) variables.now * effect_nodes_of (kinds_of task.now) part.now) }
{
    number_of_bindings(task, variables).saturating_mul(nodes_of_effect(task, part))
}

#[cycle(nodes_of_effect)]
fn nodes_of_effects(task: &TypedTask, parts: &[Effect]) -> u64
    requires { length task.now.objects ≤ 65535 }
    ensures { result ≡ saturated (sum (map (effect_nodes_of (kinds_of task.now)) parts.now)) }
{
    let mut nodes = 0u64;
    for part in parts {
        nodes = nodes.saturating_add(nodes_of_effect(task, part));
    }
    nodes
}

// The bindings of variables of these types, or the greatest number where they are more.
fn number_of_bindings(task: &TypedTask, variables: &[Types]) -> u64
    requires { length task.now.objects ≤ 65535 }
    ensures { result ≡ saturated (ways (kinds_of task.now) variables.now) }
{
    let mut bindings = 1u64;
    for types in variables {
        bindings = bindings.saturating_mul(objects_having(task, types.as_slice()));
    }
    bindings
}

// How many objects have one of the types.
fn objects_having(task: &TypedTask, types: &[u16]) -> u64
    requires { length task.now.objects ≤ 65535 }
    ensures { result ≡ length (having types.now 0 (kinds_of task.now)) }
{
    let mut found = 0;
    for object in task.objects.as_slice() {
        if has_some_type(task, object, types) {
            found += 1;
        }
    }
    found
}

ghost use Rattle.mf_eval.specs.Answers.{answered};
ghost use Rattle.mf_eval.specs.Judged.{judged, judged_all, judged_parts, judged_quantifier, judged_with, met};
ghost use Rattle.mf_meaning.specs.SortedStates.{IsSortedState};
ghost use Rattle.mf_model.specs.ResolvedTask.{IsResolvedTask};
ghost use Rattle.mf_model.specs.VariableScopes.{scope_of};
ghost use Rattle.mf_model.specs.Trees.{greatest};
ghost use Rattle.mf_eval.specs.Width.{is_condition_wide};
ghost use Rattle.mf_model.specs.Meaning.{truth_in};
ghost use Rattle.mf_model.specs.Objects.{having, kinds_of};
ghost use Rattle.mf_model.specs.States.{look_of};
ghost use Rattle.smallvec.specs.SmallVec.{HasRoomFor};
ghost use Rattle.std.specs.Prelude.{◌≡◌, ◌+◌, ◌≤◌, length, map};

use crate::binding::places;
use crate::kinds::has_some_type;
use crate::leaf::{judge_atom, judge_comparison, judge_same};
use crate::scene::Scene;
use crate::truth::{Connective, connect, is_yes, negation, neutral};
use mf_fraction::Wide;
use mf_model::{Cond, PlainState, Truth, TypedTask, Types};
use smallvec::SmallVec;

/// Whether a condition holds, fails or does neither at a sorted state, under a binding of its free variables.
/// It takes no memory.
///
/// `Wide` comes exactly where some subexpression, for some binding of the quantifiers round it, has a
/// defined exact value that does not fit. Every part is looked at.
pub fn holds(
    task: &TypedTask,
    condition: &Cond,
    binding: &[u16],
    state: &PlainState,
) -> Result<Truth, Wide>
    requires resolved { IsResolvedTask task.now }
    requires sorted { IsSortedState state.now }
    requires variables { length binding.now + scope_of condition.now ≤ 64 }
    ensures { result ≡ answered (is_condition_wide (kinds_of task.now) (look_of state.now) condition.now binding.now)
        (truth_in (kinds_of task.now) (look_of state.now) condition.now binding.now) }
{
    let mut binding = places(task.objects.allocator(), binding);
    judge(&Scene { task, state }, condition, &mut binding)
}

// Whether the condition holds.
pub(crate) fn is_met(
    scene: &Scene<'_>,
    condition: &Cond,
    binding: &mut SmallVec<u16, 64>,
) -> Result<bool, Wide>
    requires sorted { IsSortedState scene.now.state.now }
    requires objects { length scene.now.task.now.objects ≤ 65535 }
    requires room { HasRoomFor binding.old (scope_of condition.now) }
    requires few { scope_of condition.now ≤ 64 }
    ensures value { result ≡ met (kinds_of scene.now.task.now) (look_of scene.now.state.now) condition.now binding.old.items }
    ensures same { binding.new ≡ binding.old }
{
    Ok(is_yes(judge(scene, condition, binding)?))
}

#[cycle(judge)]
pub(crate) fn judge(
    scene: &Scene<'_>,
    condition: &Cond,
    binding: &mut SmallVec<u16, 64>,
) -> Result<Truth, Wide>
    requires sorted { IsSortedState scene.now.state.now }
    requires objects { length scene.now.task.now.objects ≤ 65535 }
    requires room { HasRoomFor binding.old (scope_of condition.now) }
    requires few { scope_of condition.now ≤ 64 }
    ensures value { result ≡ judged (kinds_of scene.now.task.now) (look_of scene.now.state.now) condition.now binding.old.items }
    ensures same { binding.new ≡ binding.old }
{
    match condition {
        Cond::Atom { predicate, terms } => {
            Ok(judge_atom(scene.state, *predicate, terms, binding.as_slice()))
        }
        Cond::Same { left, right } => Ok(judge_same(*left, *right, binding.as_slice())),
        Cond::Compare {
            relation,
            left,
            right,
        } => judge_comparison(*relation, left, right, binding.as_slice(), scene.state),
        Cond::Not { part } => Ok(negation(judge(scene, part.get(), binding)?)),
        Cond::And { parts } => judge_parts(scene, Connective::And, parts.as_slice(), binding),
        Cond::Or { parts } => judge_parts(scene, Connective::Or, parts.as_slice(), binding),
        Cond::Imply { left, right } => {
            let left = judge(scene, left.get(), binding)?;
            let right = judge(scene, right.get(), binding)?;
            Ok(connect(Connective::Or, negation(left), right))
        }
        Cond::All { variables, part } => {
            let variables = variables.as_slice();
            judge_all(scene, Connective::And, variables, part.get(), binding)
        }
        Cond::Any { variables, part } => {
            let variables = variables.as_slice();
            judge_all(scene, Connective::Or, variables, part.get(), binding)
        }
    }
}

#[cycle(judge)]
fn judge_parts(
    scene: &Scene<'_>,
    connective: Connective,
    parts: &[Cond],
    binding: &mut SmallVec<u16, 64>,
) -> Result<Truth, Wide>
    requires sorted { IsSortedState scene.now.state.now }
    requires objects { length scene.now.task.now.objects ≤ 65535 }
    requires room { HasRoomFor binding.old (greatest (map scope_of parts.now)) }
    requires few { greatest (map scope_of parts.now) ≤ 64 }
    ensures value { result ≡ judged_all connective
        (judged_parts (kinds_of scene.now.task.now) (look_of scene.now.state.now) parts.now binding.old.items) }
    ensures same { binding.new ≡ binding.old }
{
    let mut front = neutral(connective);
    for part in parts {
        let next = judge(scene, part, binding)?;
        front = connect(connective, front, next);
    }
    Ok(front)
}

// A quantifier's part under each binding of its variables.
#[cycle(judge)]
fn judge_all(
    scene: &Scene<'_>,
    connective: Connective,
    variables: &[Types],
    part: &Cond,
    binding: &mut SmallVec<u16, 64>,
) -> Result<Truth, Wide>
    requires sorted { IsSortedState scene.now.state.now }
    requires objects { length scene.now.task.now.objects ≤ 65535 }
    requires room { HasRoomFor binding.old (length variables.now + scope_of part.now) }
    requires few { length variables.now + scope_of part.now ≤ 64 }
    ensures value { result ≡ judged_quantifier (kinds_of scene.now.task.now) connective
        (judged (kinds_of scene.now.task.now) (look_of scene.now.state.now) part.now) variables.now binding.old.items }
    ensures same { binding.new ≡ binding.old }
{
    let Some((types, others)) = variables.split_first() else {
        return judge(scene, part, binding);
    };
    judge_objects(scene, connective, types.as_slice(), others, part, binding)
}

// The part for each object of the types, under each binding of the other variables.
#[cycle(judge)]
fn judge_objects(
    scene: &Scene<'_>,
    connective: Connective,
    types: &[u16],
    others: &[Types],
    part: &Cond,
    binding: &mut SmallVec<u16, 64>,
) -> Result<Truth, Wide>
    requires sorted { IsSortedState scene.now.state.now }
    requires objects { length scene.now.task.now.objects ≤ 65535 }
    requires room { HasRoomFor binding.old (1 + length others.now + scope_of part.now) }
    requires few { 1 + length others.now + scope_of part.now ≤ 64 }
    ensures value { result ≡ judged_all connective
        (map (judged_with (kinds_of scene.now.task.now) connective
        (judged (kinds_of scene.now.task.now) (look_of scene.now.state.now) part.now) others.now binding.old.items)
        (having types.now 0 (kinds_of scene.now.task.now))) }
    ensures same { binding.new ≡ binding.old }
{
    let mut front = neutral(connective);
    for (number, object) in scene.task.objects.as_slice().iter().enumerate() {
        if has_some_type(scene.task, object, types) {
            let next = judge_object(scene, connective, number as u16, others, part, binding)?;
            front = connect(connective, front, next);
        }
    }
    Ok(front)
}

// The part with this object, under each binding of the other variables.
#[cycle(judge)]
fn judge_object(
    scene: &Scene<'_>,
    connective: Connective,
    object: u16,
    others: &[Types],
    part: &Cond,
    binding: &mut SmallVec<u16, 64>,
) -> Result<Truth, Wide>
    requires sorted { IsSortedState scene.now.state.now }
    requires objects { length scene.now.task.now.objects ≤ 65535 }
    requires room { HasRoomFor binding.old (1 + length others.now + scope_of part.now) }
    requires few { 1 + length others.now + scope_of part.now ≤ 64 }
    ensures value { result ≡ judged_with (kinds_of scene.now.task.now) connective
        (judged (kinds_of scene.now.task.now) (look_of scene.now.state.now) part.now) others.now binding.old.items object }
    ensures same { binding.new ≡ binding.old }
{
    binding.push_reserved(object);
    let truth = judge_all(scene, connective, others, part, binding);
    binding.pop();
    truth
}

ghost use Rattle.std.specs.Prelude.{◌≡◌, ◌<◌, ◌^◌, [], ◌∷◌, ◌++◌, map, length, IfOk, OnOk};
ghost use Rattle.std.specs.Option.{option_to_list};
ghost use Rattle.mf_plain.specs.SearchTask.{IsSearchTask};
ghost use Rattle.mf_plain.specs.PlainSpace.{children_from};
ghost use Rattle.mf_plain.specs.Successors.{child_of};

use crate::Memory;
use crate::applying::after_effect;
use crate::holding::holds;
use mf_model::{Instance, List, PlainState, TypedTask};
use std::alloc::Global;

/// A state with the number of the instance that leads to it.
#[derive(Debug, Drop)]
pub(crate) struct Successor {
    pub instance: u32,
    pub state: PlainState,
}

/// The state that the instance leads to, where it is applicable.
fn child_by(
    alloc: Global,
    task: &TypedTask,
    number: u32,
    instance: &Instance,
    state: &PlainState,
) -> Result<Option<Successor>, Memory>
    requires { IsSearchTask task.now }
    ensures { IfOk result (λ it. map child_of (option_to_list it) ≡ children_from task.now state.now number (instance.now ∷ [])) }
{
    let Some(action) = task.actions.get(instance.action as usize) else {
        return Ok(None);
    };
    let arguments = instance.objects.as_slice();
    if !holds(&action.condition, arguments, state.atoms.as_slice()) {
        return Ok(None);
    }
    let next = after_effect(alloc, &action.effect, arguments, state)?;
    Ok(Some(Successor {
        instance: number,
        state: next,
    }))
}

fn push_some(list: &mut List<Successor>, next: Option<Successor>) -> Result<(), Memory>
    ensures { OnOk result (list.new ≡ list.old ++ option_to_list next) }
{
    if let Some(next) = next {
        list.push(next)?;
    }
    Ok(())
}

/// The successors by the applicable ones of the instances, in order.
pub(crate) fn successors(
    alloc: Global,
    task: &TypedTask,
    instances: &[Instance],
    state: &PlainState,
) -> Result<List<Successor>, Memory>
    requires searchable { IsSearchTask task.now }
    requires numbered { length instances.now < 2 ^ 32 }
    ensures { IfOk result (λ list. map child_of list ≡ children_from task.now state.now 0 instances.now) }
{
    let mut list = List::new(alloc);
    for (number, instance) in instances.iter().enumerate() {
        let next = child_by(alloc, task, number as u32, instance, state)?;
        push_some(&mut list, next)?;
    }
    Ok(list)
}

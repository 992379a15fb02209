ghost use Rattle.std.specs.Prelude.{◌≡◌, [], ◌++◌, IfOk, OnOk, All};
ghost use Rattle.mf_model.specs.Application.{instances_of};
ghost use Rattle.mf_model.specs.Objects.{HaveTopType, bindings, kinds_of};
ghost use Rattle.mf_plain.specs.PlainTask.{IsObjectType};
ghost use Rattle.mf_plain.specs.SearchTask.{IsSearchTask};
ghost use Rattle.mf_plain.specs.Listing.{numbers_from, with_next, extended, of_action};

use crate::Memory;
use mf_model::{Instance, List, TypedTask, Types};
use std::alloc::Global;

/// Adds the list `front` with one more object, for each of `count` objects.
fn list_next(
    alloc: Global,
    front: &List<u16>,
    count: u16,
    out: &mut List<List<u16>>,
) -> Result<(), Memory>
    ensures { OnOk result (out.new ≡ out.old ++ with_next (numbers_from 0 count) front.now) }
{
    for object in 0..count {
        let mut arguments = front.copy(alloc)?;
        arguments.push(object)?;
        out.push(arguments)?;
    }
    Ok(())
}

/// Each of the lists with one more object.
fn extend(alloc: Global, fronts: &[List<u16>], count: u16) -> Result<List<List<u16>>, Memory>
    ensures { IfOk result (λ list. list ≡ extended (numbers_from 0 count) fronts.now) }
{
    let mut out = List::new(alloc);
    for front in fronts {
        list_next(alloc, front, count, &mut out)?;
    }
    Ok(out)
}

/// All lists of arguments for the parameters, in lexicographic order.
fn arguments(
    alloc: Global,
    task: &TypedTask,
    parameters: &[Types],
) -> Result<List<List<u16>>, Memory>
    requires searchable { IsSearchTask task.now }
    requires objects { HaveTopType task.now }
    requires types { All IsObjectType parameters.now }
    ensures { IfOk result (λ list. list ≡ bindings (kinds_of task.now) parameters.now []) }
{
    let count = task.objects.len() as u16;
    let mut fronts = List::new(alloc);
    fronts.push(List::new(alloc))?;
    for _types in parameters {
        fronts = extend(alloc, fronts.as_slice(), count)?;
    }
    Ok(fronts)
}

/// Adds an instance of the action for each list of arguments.
fn list_action(action: u16, fronts: List<List<u16>>, out: &mut List<Instance>) -> Result<(), Memory>
    ensures { OnOk result (out.new ≡ out.old ++ of_action action fronts) }
{
    for objects in fronts.into_vec() {
        out.push(Instance { action, objects })?;
    }
    Ok(())
}

/// All instances of the task: by action, then by argument list in lexicographic order.
pub(crate) fn instances(alloc: Global, task: &TypedTask) -> Result<List<Instance>, Memory>
    requires searchable { IsSearchTask task.now }
    requires objects { HaveTopType task.now }
    ensures { IfOk result (λ list. list ≡ instances_of task.now) }
{
    let mut out = List::new(alloc);
    for (number, action) in task.actions.as_slice().iter().enumerate() {
        let fronts = arguments(alloc, task, action.parameters.as_slice())?;
        list_action(number as u16, fronts, &mut out)?;
    }
    Ok(out)
}

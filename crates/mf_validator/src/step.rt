ghost use Rattle.mf_validator.specs.Lexicons.{Knows, named};
ghost use Rattle.mf_validator.specs.PlanText.{Reads, argument_of, arguments_of, parameters_of};
ghost use Rattle.std.specs.Prelude.{◌≡◌, IfOk, MatchOption, None, Some, map, slice_get};

use crate::directory::Lexicon;
use crate::fault::PlanFault;
use mf_eval::has_some_type;
use mf_model::{Instance, List, TypedTask, Types};
use std::alloc::{AllocError, Global};

/// The instance that the names of a step stand for: its action's first, then those of objects.
pub(crate) fn read_step(
    alloc: Global,
    lexicon: &Lexicon<'_>,
    names: &[&[u8]],
    line: u32,
) -> Result<Instance, PlanFault>
    requires { Knows lexicon.now }
    ensures { Reads (named lexicon.now.task.now line (map (λ name. name.now) names.now)) result }
{
    let [name, others @ ..] = names else {
        return Err(PlanFault::BadLine { line });
    };
    let Some(action) = lexicon.actions.find(name) else {
        return Err(PlanFault::UnknownAction { line });
    };
    let parameters = parameters(lexicon.task, action);
    match read_arguments(alloc, lexicon, parameters, others)? {
        Some(objects) => Ok(Instance { action, objects }),
        None => Err(PlanFault::WrongArguments { line }),
    }
}

fn parameters(task: &TypedTask, action: u16) -> &[Types]
    ensures { result.now ≡ parameters_of (slice_get task.now.actions action) }
{
    match task.actions.get(usize::from(action)) {
        Some(action) => action.parameters.as_slice(),
        None => &[],
    }
}

fn read_arguments(
    alloc: Global,
    lexicon: &Lexicon<'_>,
    parameters: &[Types],
    names: &[&[u8]],
) -> Result<Option<List<u16>>, AllocError>
    requires { Knows lexicon.now }
    ensures { IfOk result (λ found. MatchOption found
        (arguments_of lexicon.now.task.now parameters.now (map (λ name. name.now) names.now) ≡ None)
        (λ objects. arguments_of lexicon.now.task.now parameters.now (map (λ name. name.now) names.now) ≡ Some objects)) }
{
    if parameters.len() != names.len() {
        return Ok(None);
    }
    let mut objects = List::new(alloc);
    for (at, types) in parameters.iter().enumerate() {
        let Some(object) = read_argument(lexicon, types, names[at]) else {
            return Ok(None);
        };
        objects.push(object)?;
    }
    Ok(Some(objects))
}

// The object of the name, if it has one of the types.
fn read_argument(lexicon: &Lexicon<'_>, types: &Types, name: &[u8]) -> Option<u16>
    requires { Knows lexicon.now }
    ensures { result ≡ argument_of lexicon.now.task.now types.now name.now }
{
    let number = lexicon.objects.find(name)?;
    let object = lexicon.task.objects.get(usize::from(number))?;
    has_some_type(lexicon.task, object, types.as_slice()).then_some(number)
}

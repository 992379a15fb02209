ghost use Rattle.std.specs.Prelude.{◌≡◌, [], map, OnOk, IfOk};
ghost use Rattle.std.specs.List.{flat_map};
ghost use Rattle.mf_types.specs.Names as spec;
ghost use Rattle.mf_types.specs.Tables.{entered};

use crate::entering::enter;
use mf_model::{RawAction, RawEffect};
use mf_names::Names;
use std::alloc::{AllocError, Global};

/// The names of the functions that an effect of some action changes.
pub(crate) fn changed(alloc: Global, actions: &[RawAction]) -> Result<Names, AllocError>
    ensures { IfOk result
        (λ names. names ≡ spec.firsts (λ name. name) [] (spec.changed_in actions.now)) }
{
    let mut names = Names::new(alloc);
    for action in actions {
        add_changed(alloc, &mut names, &action.effect)?;
    }
    Ok(names)
}

#[cycle(add_changed)]
fn add_changed(alloc: Global, names: &mut Names, effect: &RawEffect) -> Result<(), AllocError>
    ensures { OnOk result (names.new ≡ entered names.old (spec.changed_by effect.now)) }
{
    match effect {
        RawEffect::Add { .. } => Ok(()),
        RawEffect::Delete { .. } => Ok(()),
        RawEffect::Change { function, .. } => {
            let _is_new = enter(alloc, names, &function.text)?;
            Ok(())
        }
        RawEffect::Group { parts, .. } => add_changed_by_all(alloc, names, parts.as_slice()),
        RawEffect::Each { part, .. } => add_changed(alloc, names, part.get()),
        RawEffect::When { part, .. } => add_changed(alloc, names, part.get()),
    }
}

#[cycle(add_changed)]
fn add_changed_by_all(
    alloc: Global,
    names: &mut Names,
    effects: &[RawEffect],
) -> Result<(), AllocError>
    ensures { OnOk result
        (names.new
        ≡ entered names.old (flat_map (λ names. names) (map spec.changed_by effects.now))) }
{
    for effect in effects {
        add_changed(alloc, names, effect)?;
    }
    Ok(())
}

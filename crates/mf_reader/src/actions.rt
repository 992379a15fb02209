ghost use Rattle.std.specs.Prelude.{◌≡◌, ◌≤◌, length, IfOk};
ghost use Rattle.mf_reader.specs.ActionParts as reading;
ghost use Rattle.mf_reader.specs.Actions as spec;
ghost use Rattle.mf_reader.specs.Filled.{Fills};
ghost use Rattle.mf_reader.specs.Said.{Gives};

use crate::conditions::condition;
use crate::effects::effect;
use crate::fault::FormFault;
use crate::keys::{PartKey, part_key_of};
use crate::places::EffectPlace;
use crate::typed::variables;
use crate::words::{name, span_of};
use mf_model::{List, RawAction, RawCond, RawEffect, Span, Tree, TypedList, Word};
use sqlite_items::Items;
use std::alloc::Global;

/// The parts of an action that stand so far.
#[derive(Drop)]
pub(crate) struct Slots {
    pub(crate) parameters: Option<TypedList>,
    pub(crate) condition: Option<RawCond>,
    pub(crate) effect: Option<RawEffect>,
}

/// Whether a part may stand behind these: each stands once.
fn may_stand(key: PartKey, slots: &Slots) -> bool
    ensures { result ≡ spec.may_stand key slots.now }
{
    match key {
        PartKey::Parameters => slots.parameters.is_none(),
        PartKey::Precondition => slots.condition.is_none(),
        PartKey::Effect => slots.effect.is_none(),
        PartKey::Other => false,
    }
}

/// Puts a part to those that stand.
fn add_part(alloc: Global, key: PartKey, slots: &mut Slots, tree: &Tree) -> Result<(), FormFault>
    ensures { Fills result slots.new (spec.with_part key slots.old tree.now) }
{
    match key {
        PartKey::Parameters => {
            let variables = variables(alloc, tree)?;
            slots.parameters = Some(variables);
            Ok(())
        }
        PartKey::Precondition => {
            let condition = condition(alloc, tree)?;
            slots.condition = Some(condition);
            Ok(())
        }
        PartKey::Effect => {
            let effect = effect(alloc, EffectPlace::Action, tree)?;
            slots.effect = Some(effect);
            Ok(())
        }
        PartKey::Other => Ok(()),
    }
}

/// Reads a part behind its keyword, and gives what follows it.
fn read_part<'a>(
    alloc: Global,
    slots: &mut Slots,
    keyword: &Tree,
    behind: &'a [Tree],
) -> Result<&'a [Tree], FormFault>
    ensures less { IfOk result (λ rest. length rest.now ≤ length behind.now) }
    ensures reads { reading.GoesOn slots.new
        (spec.part_behind slots.old keyword.now behind.now) result }
{
    let key = part_key_of(keyword);
    let [tree, rest @ ..] = behind else {
        return Err(FormFault::BadForm {
            span: span_of(keyword),
        });
    };
    if !may_stand(key, slots) {
        return Err(FormFault::BadForm {
            span: span_of(keyword),
        });
    }
    add_part(alloc, key, slots, tree)?;
    Ok(rest)
}

/// Reads the parts of an action.
fn read_parts(alloc: Global, slots: &mut Slots, trees: &[Tree]) -> Result<(), FormFault>
    ensures { Fills result slots.new (spec.parts_from slots.old trees.now) }
{
    let mut trees = trees;
    while let [keyword, behind @ ..] = trees {
        trees = read_part(alloc, slots, keyword, behind)?;
    }
    Ok(())
}

/// An action of its name and its parts; a missing part is empty, and has the span of the action.
fn made_action(alloc: Global, span: Span, word: Word, slots: Slots) -> RawAction
    ensures { result ≡ spec.made_action span word slots }
{
    let Slots {
        parameters,
        condition,
        effect,
    } = slots;
    let parameters = parameters.unwrap_or(TypedList::new(alloc));
    let condition = condition.unwrap_or(RawCond::And {
        parts: Items::new(alloc),
        span,
    });
    let effect = effect.unwrap_or(RawEffect::Group {
        parts: Items::new(alloc),
        span,
    });
    RawAction {
        word,
        parameters,
        condition,
        effect,
    }
}

/// An action, from what stands behind its keyword.
pub(crate) fn action(alloc: Global, span: Span, trees: &[Tree]) -> Result<RawAction, FormFault>
    ensures { Gives result (spec.action_at span trees.now) }
{
    let [head, parts @ ..] = trees else {
        return Err(FormFault::BadForm { span });
    };
    let word = name(alloc, head)?;
    let mut slots = Slots {
        parameters: None,
        condition: None,
        effect: None,
    };
    read_parts(alloc, &mut slots, parts)?;
    Ok(made_action(alloc, span, word, slots))
}

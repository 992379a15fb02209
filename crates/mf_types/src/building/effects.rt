ghost use Rattle.std.specs.Prelude.{◌≡◌, ◌≤◌, length, OnOk};
ghost use Rattle.mf_model.specs.declared.task.Effect.TheVariants as effect;
ghost use Rattle.mf_types.specs.Gives.{Gives, made};
ghost use Rattle.mf_types.specs.Tables.{declared_of};
ghost use Rattle.mf_types.specs.Tasks.{AreFew};
ghost use Rattle.mf_types.specs.Typing as spec;

use super::binders::{enter, types};
use super::conditions::condition;
use super::expressions::expression;
use super::leaves::{function, predicate, terms};
use crate::binders::Binders;
use crate::refusal::Refusal;
use crate::tables::Tables;
use mf_model::{Cond, Effect, List, Op, RawCond, RawEffect, RawExpr, TypedList, Word};
use sqlite_items::{Boxed, Items};
use std::alloc::Global;

/// An atom that is added.
fn addition(
    alloc: Global,
    tables: &Tables,
    binders: &Binders,
    word: &Word,
    words: &[Word],
) -> Result<Effect, Refusal>
    requires few { AreFew (declared_of tables.now) }
    requires room { length binders.now ≤ 64 }
    ensures { Gives result (spec.literal (declared_of tables.now) effect.Add word.now words.now binders.now) }
{
    let predicate = predicate(tables, word, words.len())?;
    let terms = terms(alloc, tables, binders, words)?;
    Ok(Effect::Add { predicate, terms })
}

/// An atom that is deleted.
fn deletion(
    alloc: Global,
    tables: &Tables,
    binders: &Binders,
    word: &Word,
    words: &[Word],
) -> Result<Effect, Refusal>
    requires few { AreFew (declared_of tables.now) }
    requires room { length binders.now ≤ 64 }
    ensures { Gives result (spec.literal (declared_of tables.now) effect.Delete word.now words.now binders.now) }
{
    let predicate = predicate(tables, word, words.len())?;
    let terms = terms(alloc, tables, binders, words)?;
    Ok(Effect::Delete { predicate, terms })
}

/// A new value of a function term.
fn change(
    alloc: Global,
    tables: &Tables,
    binders: &Binders,
    op: Op,
    word: &Word,
    words: &List<Word>,
    value: &RawExpr,
) -> Result<Effect, Refusal>
    requires few { AreFew (declared_of tables.now) }
    requires room { length binders.now ≤ 64 }
    ensures { Gives result (spec.change (declared_of tables.now) op word.now words.now value.now binders.now) }
{
    let function = function(tables, word, words.len())?;
    let terms = terms(alloc, tables, binders, words.as_slice())?;
    let value = expression(alloc, tables, binders, value)?;
    Ok(Effect::Change {
        op,
        function,
        terms,
        value,
    })
}

/// An effect under a condition, if the effect was read.
fn conditional(condition: Cond, part: Result<Boxed<Effect>, Refusal>) -> Result<Effect, Refusal>
    ensures { result ≡ made (effect.When condition) part }
{
    match part {
        Ok(part) => Ok(Effect::When { condition, part }),
        Err(refusal) => Err(refusal),
    }
}

/// An effect over numbers.
#[cycle(effect)]
pub(crate) fn effect(
    alloc: Global,
    tables: &Tables,
    binders: &mut Binders,
    raw: &RawEffect,
) -> Result<Effect, Refusal>
    requires few { AreFew (declared_of tables.now) }
    requires room { length binders.old ≤ 64 }
    ensures value { Gives result (spec.effect_of (declared_of tables.now) raw.now binders.old) }
    ensures same { OnOk result (binders.new ≡ binders.old) }
{
    match raw {
        RawEffect::Add {
            predicate,
            terms,
            ..
        } => addition(alloc, tables, binders, predicate, terms.as_slice()),
        RawEffect::Delete {
            predicate,
            terms,
            ..
        } => deletion(alloc, tables, binders, predicate, terms.as_slice()),
        RawEffect::Change {
            op,
            function,
            terms,
            value,
            ..
        } => change(alloc, tables, binders, *op, function, terms, value),
        RawEffect::Group { parts, .. } => group(alloc, tables, binders, parts.as_slice()),
        RawEffect::Each {
            variables,
            part,
            ..
        } => each(alloc, tables, binders, variables, part.get()),
        RawEffect::When {
            condition,
            part,
            ..
        } => when(alloc, tables, binders, condition, part.get()),
    }
}

#[cycle(effect)]
fn group(
    alloc: Global,
    tables: &Tables,
    binders: &mut Binders,
    raws: &[RawEffect],
) -> Result<Effect, Refusal>
    requires few { AreFew (declared_of tables.now) }
    requires room { length binders.old ≤ 64 }
    ensures value { Gives result (spec.one effect.Group (spec.effects_of (declared_of tables.now) raws.now binders.old)) }
    ensures same { OnOk result (binders.new ≡ binders.old) }
{
    let parts = effects(alloc, tables, binders, raws)?;
    Ok(Effect::Group { parts })
}

/// An effect for each object of a list of variables.
#[cycle(effect)]
fn each(
    alloc: Global,
    tables: &Tables,
    binders: &mut Binders,
    variables: &TypedList,
    raw: &RawEffect,
) -> Result<Effect, Refusal>
    requires few { AreFew (declared_of tables.now) }
    requires room { length binders.old ≤ 64 }
    ensures value { Gives result (spec.quantified (declared_of tables.now) effect.Each variables.now (spec.effect_of (declared_of tables.now) raw.now) binders.old) }
    ensures same { OnOk result (binders.new ≡ binders.old) }
{
    let types = types(alloc, tables, variables)?;
    let part = inner(alloc, tables, binders, variables, raw)?;
    Ok(Effect::Each {
        variables: types,
        part,
    })
}

/// An effect under a condition.
#[tactic(auto, using(crate::proofs::Made::made_gives))]
#[cycle(effect)]
fn when(
    alloc: Global,
    tables: &Tables,
    binders: &mut Binders,
    guard: &RawCond,
    raw: &RawEffect,
) -> Result<Effect, Refusal>
    requires few { AreFew (declared_of tables.now) }
    requires room { length binders.old ≤ 64 }
    ensures value { Gives result (spec.both effect.When (spec.cond_of (declared_of tables.now) guard.now binders.old) (spec.effect_of (declared_of tables.now) raw.now binders.old)) }
    ensures same { OnOk result (binders.new ≡ binders.old) }
{
    let condition = condition(alloc, tables, binders, guard)?;
    let part = boxed(alloc, tables, binders, raw);
    conditional(condition, part)
}

/// An effect as a part of another one.
#[cycle(effect)]
fn boxed(
    alloc: Global,
    tables: &Tables,
    binders: &mut Binders,
    raw: &RawEffect,
) -> Result<Boxed<Effect>, Refusal>
    requires few { AreFew (declared_of tables.now) }
    requires room { length binders.old ≤ 64 }
    ensures value { Gives result (spec.effect_of (declared_of tables.now) raw.now binders.old) }
    ensures same { OnOk result (binders.new ≡ binders.old) }
{
    let part = effect(alloc, tables, binders, raw)?;
    Ok(Boxed::new(alloc, part)?)
}

/// An effect inside a list of variables.
#[cycle(effect)]
fn inner(
    alloc: Global,
    tables: &Tables,
    binders: &mut Binders,
    variables: &TypedList,
    raw: &RawEffect,
) -> Result<Boxed<Effect>, Refusal>
    requires few { AreFew (declared_of tables.now) }
    requires room { length binders.old ≤ 64 }
    ensures value { Gives result (spec.within variables.now (spec.effect_of (declared_of tables.now) raw.now) binders.old) }
    ensures same { OnOk result (binders.new ≡ binders.old) }
{
    let outer = binders.len();
    enter(alloc, binders, variables.as_slice())?;
    let part = boxed(alloc, tables, binders, raw)?;
    binders.truncate(outer);
    Ok(part)
}

/// The parts of a group.
#[cycle(effect)]
fn effects(
    alloc: Global,
    tables: &Tables,
    binders: &mut Binders,
    raws: &[RawEffect],
) -> Result<Items<Effect>, Refusal>
    requires few { AreFew (declared_of tables.now) }
    requires room { length binders.old ≤ 64 }
    ensures value { Gives result (spec.effects_of (declared_of tables.now) raws.now binders.old) }
    ensures same { OnOk result (binders.new ≡ binders.old) }
{
    let mut out = Items::new(alloc);
    for raw in raws {
        let part = effect(alloc, tables, binders, raw)?;
        out.push(part)?;
    }
    Ok(out)
}

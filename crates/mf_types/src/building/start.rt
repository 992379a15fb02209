ghost use Rattle.std.specs.Prelude.{◌≡◌, ◌∷◌, ◌++◌, List, OnOk, IfOk};
ghost use Rattle.mf_model.specs.declared.task.Valued as valued;
ghost use Rattle.mf_types.specs.Gives.{Gives};
ghost use Rattle.mf_types.specs.Names.{firsts};
ghost use Rattle.mf_types.specs.Tables.{declared_of};
ghost use Rattle.mf_types.specs.Tasks as spec;

use super::keys::Keys;
use super::leaves::{function, number, object, predicate};
use crate::refusal::Refusal;
use crate::tables::Tables;
use mf_model::{Atom, Cell, List, RawCond, RawValue, Valued, Word};
use std::alloc::{AllocError, Global};

/// The objects of a ground atom or term.
fn objects(alloc: Global, tables: &Tables, words: &[Word]) -> Result<List<u16>, Refusal>
    requires few { spec.AreFew (declared_of tables.now) }
    ensures { Gives result (spec.objects_of (declared_of tables.now) words.now) }
{
    let mut out = List::new(alloc);
    for word in words {
        let number = object(tables, word.text.as_slice())?;
        out.push(number)?;
    }
    Ok(out)
}

/// An atom that is true at the start.
fn atom(alloc: Global, tables: &Tables, word: &Word, words: &[Word]) -> Result<Atom, Refusal>
    requires few { spec.AreFew (declared_of tables.now) }
    ensures { Gives result (spec.atom_of (declared_of tables.now) word.now words.now) }
{
    let predicate = predicate(tables, word, words.len())?;
    let objects = objects(alloc, tables, words)?;
    Ok(Atom { predicate, objects })
}

/// What a part of the start says to be true, if it does.
fn fact(alloc: Global, tables: &Tables, raw: &RawCond) -> Result<Option<Atom>, Refusal>
    requires few { spec.AreFew (declared_of tables.now) }
    ensures { Gives result (spec.fact_of (declared_of tables.now) raw.now) }
{
    match raw {
        RawCond::Atom {
            predicate,
            terms,
            ..
        } => Ok(Some(atom(alloc, tables, predicate, terms.as_slice())?)),
        _ => Ok(None),
    }
}

/// The atoms that are true at the start.
pub(crate) fn facts(alloc: Global, tables: &Tables, raws: &[RawCond]) -> Result<List<Atom>, Refusal>
    requires few { spec.AreFew (declared_of tables.now) }
    ensures { Gives result (spec.facts_of (declared_of tables.now) raws.now) }
{
    let mut out = List::new(alloc);
    for raw in raws {
        let Some(atom) = fact(alloc, tables, raw)? else {
            continue;
        };
        out.push(atom)?;
    }
    Ok(out)
}

/// A start value.
#[tactic(auto, unfolding(crate::specs::Tasks::value_of))]
fn value(alloc: Global, tables: &Tables, raw: &RawValue) -> Result<Valued, Refusal>
    requires few { spec.AreFew (declared_of tables.now) }
    ensures { Gives result (spec.value_of (declared_of tables.now) raw.now) }
{
    let function = function(tables, &raw.function, raw.objects.len())?;
    let objects = objects(alloc, tables, raw.objects.as_slice())?;
    let value = number(&raw.value)?;
    Ok(Valued {
        cell: Cell { function, objects },
        value,
    })
}

/// The function and the objects of a value's term.
fn key(alloc: Global, value: &Valued) -> Result<Vec<u16>, AllocError>
    ensures { IfOk result (λ key. key.items ≡ spec.term_key value.now) }
{
    let mut key = Vec::new(alloc);
    key.push(value.cell.function)?;
    key.extend_from_slice(value.cell.objects.as_slice())?;
    Ok(key)
}

/// Adds a value whose term has none.
fn add_value(
    alloc: Global,
    keys: &mut Keys,
    out: &mut List<Valued>,
    value: Valued,
) -> Result<(), AllocError>
    ensures { OnOk result ((others : List valued.Valued) →
        out.new ++ firsts spec.term_key keys.new others ≡ out.old ++ firsts spec.term_key keys.old (value ∷ others)) }
{
    let key = key(alloc, &value)?;
    if keys.add(key)? {
        out.push(value)?;
    }
    Ok(())
}

/// The start values, the first of each term alone.
pub(crate) fn values(
    alloc: Global,
    tables: &Tables,
    raws: &[RawValue],
) -> Result<List<Valued>, Refusal>
    requires few { spec.AreFew (declared_of tables.now) }
    ensures { Gives result (spec.values_of (declared_of tables.now) raws.now) }
{
    let mut keys = Keys::new(alloc);
    let mut out = List::new(alloc);
    for raw in raws {
        let value = value(alloc, tables, raw)?;
        add_value(alloc, &mut keys, &mut out, value)?;
    }
    Ok(out)
}

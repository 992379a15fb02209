ghost use Rattle.std.specs.Prelude.{◌≡◌, ◌≤◌, length, OnOk};
ghost use Rattle.mf_model.specs.declared.task.Cond.TheVariants as cond;
ghost use Rattle.mf_types.specs.Gives.{Gives, made};
ghost use Rattle.mf_types.specs.Tables.{declared_of};
ghost use Rattle.mf_types.specs.Tasks.{AreFew};
ghost use Rattle.mf_types.specs.Typing as spec;

use super::binders::{enter, types};
use super::expressions::expression;
use super::leaves::{predicate, term, terms};
use crate::binders::Binders;
use crate::refusal::Refusal;
use crate::tables::Tables;
use mf_model::{Cond, Expr, RawCond, RawExpr, Relation, TypedList, Word};
use sqlite_items::{Boxed, Items};
use std::alloc::Global;

fn atom(
    alloc: Global,
    tables: &Tables,
    binders: &Binders,
    word: &Word,
    words: &[Word],
) -> Result<Cond, Refusal>
    requires few { AreFew (declared_of tables.now) }
    requires room { length binders.now ≤ 64 }
    ensures { Gives result (spec.atom_cond (declared_of tables.now) word.now words.now binders.now) }
{
    let predicate = predicate(tables, word, words.len())?;
    let terms = terms(alloc, tables, binders, words)?;
    Ok(Cond::Atom { predicate, terms })
}

fn same(tables: &Tables, binders: &Binders, left: &Word, right: &Word) -> Result<Cond, Refusal>
    requires few { AreFew (declared_of tables.now) }
    requires room { length binders.now ≤ 64 }
    ensures { Gives result (spec.both cond.Same (spec.term_of (declared_of tables.now) binders.now left.now) (spec.term_of (declared_of tables.now) binders.now right.now)) }
{
    let left = term(tables, binders, left)?;
    let right = term(tables, binders, right)?;
    Ok(Cond::Same { left, right })
}

/// The comparison of a side and another one, if that was read.
fn compared(relation: Relation, left: Expr, right: Result<Expr, Refusal>) -> Result<Cond, Refusal>
    ensures { result ≡ made (cond.Compare relation left) right }
{
    match right {
        Ok(right) => Ok(Cond::Compare {
            relation,
            left,
            right,
        }),
        Err(refusal) => Err(refusal),
    }
}

#[tactic(auto, using(crate::proofs::Made::made_gives))]
fn comparison(
    alloc: Global,
    tables: &Tables,
    binders: &Binders,
    relation: Relation,
    left: &RawExpr,
    right: &RawExpr,
) -> Result<Cond, Refusal>
    requires few { AreFew (declared_of tables.now) }
    requires room { length binders.now ≤ 64 }
    ensures { Gives result (spec.both (cond.Compare relation) (spec.expr_of (declared_of tables.now) left.now binders.now) (spec.expr_of (declared_of tables.now) right.now binders.now)) }
{
    let left = expression(alloc, tables, binders, left)?;
    let right = expression(alloc, tables, binders, right);
    compared(relation, left, right)
}

/// A condition over numbers.
#[cycle(condition)]
pub(crate) fn condition(
    alloc: Global,
    tables: &Tables,
    binders: &mut Binders,
    raw: &RawCond,
) -> Result<Cond, Refusal>
    requires few { AreFew (declared_of tables.now) }
    requires room { length binders.old ≤ 64 }
    ensures value { Gives result (spec.cond_of (declared_of tables.now) raw.now binders.old) }
    ensures same { OnOk result (binders.new ≡ binders.old) }
{
    match raw {
        RawCond::Atom {
            predicate,
            terms,
            ..
        } => atom(alloc, tables, binders, predicate, terms.as_slice()),
        RawCond::Same { left, right, .. } => same(tables, binders, left, right),
        RawCond::Compare {
            relation,
            left,
            right,
            ..
        } => comparison(alloc, tables, binders, *relation, left, right),
        RawCond::Not { part, .. } => negation(alloc, tables, binders, part.get()),
        RawCond::And { parts, .. } => conjunction(alloc, tables, binders, parts.as_slice()),
        RawCond::Or { parts, .. } => disjunction(alloc, tables, binders, parts.as_slice()),
        RawCond::Imply { left, right, .. } => {
            implication(alloc, tables, binders, left.get(), right.get())
        }
        RawCond::All {
            variables,
            part,
            ..
        } => universal(alloc, tables, binders, variables, part.get()),
        RawCond::Any {
            variables,
            part,
            ..
        } => existential(alloc, tables, binders, variables, part.get()),
    }
}

#[cycle(condition)]
fn negation(
    alloc: Global,
    tables: &Tables,
    binders: &mut Binders,
    raw: &RawCond,
) -> Result<Cond, Refusal>
    requires few { AreFew (declared_of tables.now) }
    requires room { length binders.old ≤ 64 }
    ensures value { Gives result (spec.one cond.Not (spec.cond_of (declared_of tables.now) raw.now binders.old)) }
    ensures same { OnOk result (binders.new ≡ binders.old) }
{
    let part = boxed(alloc, tables, binders, raw)?;
    Ok(Cond::Not { part })
}

#[cycle(condition)]
fn conjunction(
    alloc: Global,
    tables: &Tables,
    binders: &mut Binders,
    raws: &[RawCond],
) -> Result<Cond, Refusal>
    requires few { AreFew (declared_of tables.now) }
    requires room { length binders.old ≤ 64 }
    ensures value { Gives result (spec.one cond.And (spec.conds_of (declared_of tables.now) raws.now binders.old)) }
    ensures same { OnOk result (binders.new ≡ binders.old) }
{
    let parts = conditions(alloc, tables, binders, raws)?;
    Ok(Cond::And { parts })
}

#[cycle(condition)]
fn disjunction(
    alloc: Global,
    tables: &Tables,
    binders: &mut Binders,
    raws: &[RawCond],
) -> Result<Cond, Refusal>
    requires few { AreFew (declared_of tables.now) }
    requires room { length binders.old ≤ 64 }
    ensures value { Gives result (spec.one cond.Or (spec.conds_of (declared_of tables.now) raws.now binders.old)) }
    ensures same { OnOk result (binders.new ≡ binders.old) }
{
    let parts = conditions(alloc, tables, binders, raws)?;
    Ok(Cond::Or { parts })
}

#[tactic(auto, using(crate::proofs::Made::made_gives))]
#[cycle(condition)]
fn implication(
    alloc: Global,
    tables: &Tables,
    binders: &mut Binders,
    left: &RawCond,
    right: &RawCond,
) -> Result<Cond, Refusal>
    requires few { AreFew (declared_of tables.now) }
    requires room { length binders.old ≤ 64 }
    ensures value { Gives result (spec.both cond.Imply (spec.cond_of (declared_of tables.now) left.now binders.old) (spec.cond_of (declared_of tables.now) right.now binders.old)) }
    ensures same { OnOk result (binders.new ≡ binders.old) }
{
    let left = boxed(alloc, tables, binders, left)?;
    let right = boxed(alloc, tables, binders, right);
    implied(left, right)
}

/// The implication of a part and another one, if that was read.
fn implied(left: Boxed<Cond>, right: Result<Boxed<Cond>, Refusal>) -> Result<Cond, Refusal>
    ensures { result ≡ made (cond.Imply left) right }
{
    match right {
        Ok(right) => Ok(Cond::Imply { left, right }),
        Err(refusal) => Err(refusal),
    }
}

/// A condition for each object of a list of variables.
#[cycle(condition)]
fn universal(
    alloc: Global,
    tables: &Tables,
    binders: &mut Binders,
    variables: &TypedList,
    raw: &RawCond,
) -> Result<Cond, Refusal>
    requires few { AreFew (declared_of tables.now) }
    requires room { length binders.old ≤ 64 }
    ensures value { Gives result (spec.quantified (declared_of tables.now) cond.All variables.now (spec.cond_of (declared_of tables.now) raw.now) binders.old) }
    ensures same { OnOk result (binders.new ≡ binders.old) }
{
    let types = types(alloc, tables, variables)?;
    let part = inner(alloc, tables, binders, variables, raw)?;
    Ok(Cond::All {
        variables: types,
        part,
    })
}

/// A condition for some object of a list of variables.
#[cycle(condition)]
fn existential(
    alloc: Global,
    tables: &Tables,
    binders: &mut Binders,
    variables: &TypedList,
    raw: &RawCond,
) -> Result<Cond, Refusal>
    requires few { AreFew (declared_of tables.now) }
    requires room { length binders.old ≤ 64 }
    ensures value { Gives result (spec.quantified (declared_of tables.now) cond.Any variables.now (spec.cond_of (declared_of tables.now) raw.now) binders.old) }
    ensures same { OnOk result (binders.new ≡ binders.old) }
{
    let types = types(alloc, tables, variables)?;
    let part = inner(alloc, tables, binders, variables, raw)?;
    Ok(Cond::Any {
        variables: types,
        part,
    })
}

/// A condition as a part of another one.
#[cycle(condition)]
fn boxed(
    alloc: Global,
    tables: &Tables,
    binders: &mut Binders,
    raw: &RawCond,
) -> Result<Boxed<Cond>, Refusal>
    requires few { AreFew (declared_of tables.now) }
    requires room { length binders.old ≤ 64 }
    ensures value { Gives result (spec.cond_of (declared_of tables.now) raw.now binders.old) }
    ensures same { OnOk result (binders.new ≡ binders.old) }
{
    let part = condition(alloc, tables, binders, raw)?;
    Ok(Boxed::new(alloc, part)?)
}

/// A condition inside a list of variables.
#[cycle(condition)]
fn inner(
    alloc: Global,
    tables: &Tables,
    binders: &mut Binders,
    variables: &TypedList,
    raw: &RawCond,
) -> Result<Boxed<Cond>, Refusal>
    requires few { AreFew (declared_of tables.now) }
    requires room { length binders.old ≤ 64 }
    ensures value { Gives result (spec.within variables.now (spec.cond_of (declared_of tables.now) raw.now) binders.old) }
    ensures same { OnOk result (binders.new ≡ binders.old) }
{
    let outer = binders.len();
    enter(alloc, binders, variables.as_slice())?;
    let part = boxed(alloc, tables, binders, raw)?;
    binders.truncate(outer);
    Ok(part)
}

/// The parts of a conjunction or a disjunction.
#[cycle(condition)]
fn conditions(
    alloc: Global,
    tables: &Tables,
    binders: &mut Binders,
    raws: &[RawCond],
) -> Result<Items<Cond>, Refusal>
    requires few { AreFew (declared_of tables.now) }
    requires room { length binders.old ≤ 64 }
    ensures value { Gives result (spec.conds_of (declared_of tables.now) raws.now binders.old) }
    ensures same { OnOk result (binders.new ≡ binders.old) }
{
    let mut out = Items::new(alloc);
    for raw in raws {
        let part = condition(alloc, tables, binders, raw)?;
        out.push(part)?;
    }
    Ok(out)
}

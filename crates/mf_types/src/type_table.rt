ghost use Rattle.std.specs.Prelude.{◌≡◌, [], ◌∷◌, ◌++◌, map, IfOk, OnOk, slice_index_or};
ghost use Rattle.mf_types.specs.Names as spec;
ghost use Rattle.mf_types.specs.Tables.{entered, parent_by, pointed};

use crate::ancestry::Ancestry;
use crate::entering::{add_item, enter};
use crate::item_types::types_of_items;
use crate::kept::says_nothing;
use crate::type_row::TypeRow;
use mf_model::{List, Text, Typed, TypedList, Word};
use mf_names::Names;
use std::alloc::{AllocError, Global};

/// The words of `:types` in the order of the text: the items of a group, then its parent.
pub(crate) fn type_words<'a>(alloc: Global, items: &'a [Typed]) -> Result<Vec<&'a Word>, AllocError>
    ensures { IfOk result (λ words. pointed words.items ≡ spec.type_words items.now) }
{
    let mut words = Vec::new(alloc);
    let mut left = items;
    while let [item, others @ ..] = left {
        words.push(&item.word)?;
        add_parents(&mut words, item, others)?;
        left = others;
    }
    Ok(words)
}

// The parent of a group stands behind its last item.
fn add_parents<'a>(
    words: &mut Vec<&'a Word>,
    item: &'a Typed,
    others: &[Typed],
) -> Result<(), AllocError>
    ensures { OnOk result
        (pointed words.new.items
        ≡ pointed words.old.items ++ spec.parents_behind item.now others.now) }
{
    if shares(item.types.as_slice(), others) {
        return Ok(());
    }
    for word in item.types.as_slice() {
        words.push(word)?;
    }
    Ok(())
}

// Whether the first of the items stands in the same group.
fn shares(words: &[Word], items: &[Typed]) -> bool
    ensures { result ≡ spec.shares words.now items.now }
{
    match items {
        [] => false,
        [item, ..] => match (words, item.types.as_slice()) {
            ([], []) => true,
            ([own, ..], [other, ..]) => own.span.start == other.span.start,
            ([], [_, ..]) => false,
            ([_, ..], []) => false,
        },
    }
}

/// Enters the words that are new, and answers these.
pub(crate) fn add_words<'a>(
    alloc: Global,
    names: &mut Names,
    words: &[&'a Word],
) -> Result<Vec<&'a Word>, AllocError>
    ensures names { OnOk result
        (names.new ≡ entered names.old (map spec.text_of (pointed words.now))) }
    ensures firsts { IfOk result
        (λ firsts. pointed firsts.items ≡ spec.firsts spec.text_of names.old (pointed words.now)) }
{
    let mut firsts = Vec::new(alloc);
    for word in words {
        if enter(alloc, names, &word.text)? {
            firsts.push(*word)?;
        }
    }
    Ok(firsts)
}

/// The words of `:types` where each type first stands, as item or as parent, without `object`.
pub(crate) fn type_firsts<'a>(
    alloc: Global,
    items: &'a [Typed],
) -> Result<Vec<&'a Word>, AllocError>
    ensures { IfOk result (λ words. pointed words.items ≡ spec.type_firsts items.now) }
{
    let words = type_words(alloc, items)?;
    let mut names = object_alone(alloc)?;
    add_words(alloc, &mut names, words.as_slice())
}

/// The types in the order of their numbers, and the number of the parent of each.
#[derive(Debug, Drop)]
pub(crate) struct TypeTable {
    pub(crate) names: Names,
    pub(crate) parents: Ancestry,
}

pub(crate) fn type_table(alloc: Global, items: &TypedList) -> Result<TypeTable, AllocError>
    ensures names { IfOk result (λ table. table.names ≡ spec.type_names items.now) }
    ensures parents { IfOk result (λ table. table.parents ≡ spec.parents_of items.now) }
{
    let words = type_words(alloc, items.as_slice())?;
    let mut names = object_alone(alloc)?;
    let firsts = add_words(alloc, &mut names, words.as_slice())?;
    let mut own = Names::new(alloc);
    let mut types = List::new(alloc);
    add_kept(alloc, &names, &mut own, &mut types, items)?;
    let parents = parents(alloc, firsts.as_slice(), &own, types.as_slice())?;
    Ok(TypeTable { names, parents })
}

fn object_alone(alloc: Global) -> Result<Names, AllocError>
    ensures { IfOk result (λ names. names ≡ spec.object_name ∷ []) }
{
    let mut names = Names::new(alloc);
    names.add(alloc, &Text::from_slice(alloc, b"object")?)?;
    Ok(names)
}

// Enters the items with their types, without `object` under `object`.
fn add_kept(
    alloc: Global,
    types: &Names,
    names: &mut Names,
    out: &mut List<TypeRow>,
    items: &TypedList,
) -> Result<(), AllocError>
    ensures names { OnOk result
        (names.new ≡ entered names.old (map spec.item_text (spec.kept_types items.now))) }
    ensures types { OnOk result
        (out.new ≡ out.old ++ map (spec.item_types types.now)
        (spec.firsts spec.item_text names.old (spec.kept_types items.now))) }
{
    let rows = types_of_items(alloc, types, None, items)?;
    for (n, item) in items.as_slice().iter().enumerate() {
        add_if_kept(alloc, names, out, item, &rows.as_slice()[n])?;
    }
    Ok(())
}

fn add_if_kept(
    alloc: Global,
    names: &mut Names,
    out: &mut List<TypeRow>,
    item: &Typed,
    types: &TypeRow,
) -> Result<(), AllocError>
    ensures names { OnOk result
        (names.new ≡ entered names.old (map spec.item_text (spec.kept_types (item.now ∷ [])))) }
    ensures types { OnOk result
        (out.new ≡ out.old ++ map (λ one. types.now)
        (spec.firsts spec.item_text names.old (spec.kept_types (item.now ∷ [])))) }
{
    if says_nothing(item) {
        return Ok(());
    }
    add_item(alloc, names, out, item, types)
}

// The parent of `object`, and of each of the words, by the first items of a name and their types.
fn parents(
    alloc: Global,
    words: &[&Word],
    own: &Names,
    types: &[TypeRow],
) -> Result<Ancestry, AllocError>
    ensures { IfOk result
        (λ parents. parents
        ≡ map (parent_by own.now types.now)
        (spec.object_name ∷ map spec.text_of (pointed words.now))) }
{
    let mut parents = List::new(alloc);
    parents.push(parent_of(own, types, b"object".as_slice()))?;
    for word in words {
        parents.push(parent_of(own, types, word.text.as_slice()))?;
    }
    Ok(Ancestry::new(alloc, parents))
}

fn parent_of(own: &Names, types: &[TypeRow], name: &[u8]) -> usize
    ensures { result ≡ parent_by own.now types.now name.now }
{
    match own.find(name) {
        Some(number) => first_type(types, number),
        None => 0,
    }
}

fn first_type(types: &[TypeRow], number: usize) -> usize
    ensures { result ≡ spec.head_or_zero (slice_index_or types.now number []) }
{
    match types.get(number) {
        Some(own) => match own.as_slice() {
            [first, ..] => *first,
            [] => 0,
        },
        None => 0,
    }
}

ghost use Rattle.std.specs.Prelude.{◌≡◌, ◌≤◌, [], ◌∷◌, ◌++◌, IfOk, OnOk, length, map};
ghost use Rattle.mf_reader.specs.Faces.{name_at};
ghost use Rattle.mf_model.specs.TypedLists.{typed_as};
ghost use Rattle.mf_reader.specs.Groups as reading;
ghost use Rattle.mf_reader.specs.Said.{Gives, each, said};
ghost use Rattle.mf_reader.specs.Seen.{seen};
ghost use Rattle.mf_reader.specs.Typed as spec;

use crate::fault::FormFault;
use crate::words::{has_text, name, span_of, variable};
use mf_model::{List, SharedList, Span, Tree, TypedList, Word};
use std::alloc::{AllocError, Global};
use std::mem::replace;

/// What a typed list lists.
#[derive(Clone, Copy)]
pub(crate) enum Listed {
    /// Parameters and quantified variables.
    Variables,
    /// Constants and objects.
    Names,
    /// Types under their parents.
    Types,
}

/// A list of one word.
fn alone(alloc: Global, word: Word) -> Result<List<Word>, FormFault>
    ensures { Gives result (said (spec.alone word)) }
{
    let mut words = List::new(alloc);
    words.push(word)?;
    Ok(words)
}

/// Names in a row.
pub(crate) fn names(alloc: Global, trees: &[Tree]) -> Result<List<Word>, FormFault>
    ensures { Gives result (each (λ s. name_at s.face) (map seen trees.now)) }
{
    let mut out = List::new(alloc);
    for tree in trees {
        let word = name(alloc, tree)?;
        out.push(word)?;
    }
    Ok(out)
}

/// The types that a list chooses from.
fn list_types(alloc: Global, span: Span, items: &[Tree]) -> Result<List<Word>, FormFault>
    ensures { Gives result (spec.list_types span (map seen items.now)) }
{
    match items {
        [head, parts @ ..] => {
            if has_text(head, b"either".as_slice()) && !parts.is_empty() {
                names(alloc, parts)
            } else {
                Err(FormFault::BadForm { span })
            }
        }
        [] => Err(FormFault::BadForm { span }),
    }
}

/// The types of a variable, a constant or an object.
pub(crate) fn types(alloc: Global, tree: &Tree) -> Result<List<Word>, FormFault>
    ensures { Gives result (seen tree.now).types }
{
    match tree {
        Tree::Leaf { .. } => {
            let word = name(alloc, tree)?;
            alone(alloc, word)
        }
        Tree::Branch { items, span } => list_types(alloc, *span, items.as_slice()),
    }
}

/// Whether a list chooses between types.
fn is_choice(items: &[Tree]) -> bool
    ensures { result ≡ spec.is_choice (map seen items.now) }
{
    match items {
        [head, ..] => has_text(head, b"either".as_slice()),
        [] => false,
    }
}

/// A type, or the parent of types, in `:types`.
fn parent(alloc: Global, tree: &Tree) -> Result<Word, FormFault>
    ensures { Gives result (seen tree.now).parent }
{
    match tree {
        Tree::Leaf { .. } => name(alloc, tree),
        Tree::Branch { items, span } => {
            if is_choice(items.as_slice()) {
                Err(FormFault::LeftOut { span: *span })
            } else {
                Err(FormFault::BadForm { span: *span })
            }
        }
    }
}

/// An item of a typed list.
fn item(alloc: Global, listed: Listed, tree: &Tree) -> Result<Word, FormFault>
    ensures { Gives result (spec.item_in listed (seen tree.now)) }
{
    match listed {
        Listed::Variables => variable(alloc, tree),
        Listed::Names => name(alloc, tree),
        Listed::Types => parent(alloc, tree),
    }
}

/// The types of the items of a group.
fn item_types(alloc: Global, listed: Listed, tree: &Tree) -> Result<List<Word>, FormFault>
    ensures { Gives result (spec.types_in listed (seen tree.now)) }
{
    match listed {
        Listed::Variables | Listed::Names => types(alloc, tree),
        Listed::Types => {
            let word = parent(alloc, tree)?;
            alone(alloc, word)
        }
    }
}

/// The groups that are read, and the words of the one that is begun.
#[derive(Drop)]
struct Groups {
    done: TypedList,
    pending: List<Word>,
}

/// Gives the words of the group that is begun their types.
fn close_group(
    alloc: Global,
    groups: &mut Groups,
    types: &SharedList<Word>,
) -> Result<(), AllocError>
    ensures done { OnOk result
        (groups.new.done ≡ groups.old.done ++ typed_as types.now groups.old.pending) }
    ensures begun { OnOk result (groups.new.pending ≡ []) }
{
    let words = replace(&mut groups.pending, List::new(alloc));
    let done = replace(&mut groups.done, TypedList::new(alloc));
    groups.done = done.with_group(types, words)?;
    Ok(())
}

/// Ends a group at the `-` behind its words, with the type behind that, and gives what follows.
fn end_group<'a>(
    alloc: Global,
    listed: Listed,
    groups: &mut Groups,
    dash: Span,
    behind: &'a [Tree],
) -> Result<&'a [Tree], FormFault>
    ensures less { IfOk result (λ rest. length rest.now ≤ length behind.now) }
    ensures reads { reading.GoesOn listed groups.new
        (reading.from_dash listed groups.old dash (map seen behind.now)) result }
{
    let [tree, rest @ ..] = behind else {
        return Err(FormFault::BadForm { span: dash });
    };
    if groups.pending.is_empty() {
        return Err(FormFault::BadForm { span: dash });
    }
    let types = item_types(alloc, listed, tree)?;
    let types = SharedList::from_list(types)?;
    close_group(alloc, groups, &types)?;
    Ok(rest)
}

/// Reads one item more, or the end of a group, and gives what follows.
fn read_item<'a>(
    alloc: Global,
    listed: Listed,
    groups: &mut Groups,
    tree: &Tree,
    behind: &'a [Tree],
) -> Result<&'a [Tree], FormFault>
    ensures less { IfOk result (λ rest. length rest.now ≤ length behind.now) }
    ensures reads { reading.GoesOn listed groups.new
        (reading.from_groups listed groups.old (map seen (tree.now ∷ behind.now))) result }
{
    if has_text(tree, b"-".as_slice()) {
        return end_group(alloc, listed, groups, span_of(tree), behind);
    }
    let word = item(alloc, listed, tree)?;
    groups.pending.push(word)?;
    Ok(behind)
}

/// Groups of items with their types, and at last items without a type.
pub(crate) fn typed_list(
    alloc: Global,
    listed: Listed,
    items: &[Tree],
) -> Result<TypedList, FormFault>
    ensures { Gives result (spec.typed_list listed (map seen items.now)) }
{
    let mut groups = Groups {
        done: TypedList::new(alloc),
        pending: List::new(alloc),
    };
    let mut items = items;
    while let [item, behind @ ..] = items {
        items = read_item(alloc, listed, &mut groups, item, behind)?;
    }
    let Groups { done, pending } = groups;
    let untyped = SharedList::from_list(List::new(alloc))?;
    Ok(done.with_group(&untyped, pending)?)
}

/// Typed variables in brackets.
pub(crate) fn variables(alloc: Global, tree: &Tree) -> Result<TypedList, FormFault>
    ensures { Gives result (seen tree.now).variables }
{
    match tree {
        Tree::Leaf { span, .. } => Err(FormFault::BadForm { span: *span }),
        Tree::Branch { items, .. } => typed_list(alloc, Listed::Variables, items.as_slice()),
    }
}

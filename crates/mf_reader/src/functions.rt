ghost use Rattle.std.specs.Prelude.{◌≤◌, ◌∷◌, length, IfOk};
ghost use Rattle.mf_reader.specs.Functions as spec;
ghost use Rattle.mf_reader.specs.FunctionGroups as reading;
ghost use Rattle.mf_reader.specs.Said.{Gives, said};

use crate::fault::FormFault;
use crate::headers::function_header;
use crate::typed::types;
use crate::words::{has_text, span_of};
use mf_model::{Header, List, Span, Tree};
use std::alloc::Global;

/// Whether a tree is a type, and not the word `number`.
fn is_other_type(alloc: Global, tree: &Tree) -> Result<bool, FormFault>
    ensures { Gives result (said (spec.is_other_type tree.now)) }
{
    match types(alloc, tree) {
        Ok(_) => Ok(!has_text(tree, b"number".as_slice())),
        Err(FormFault::Memory) => Err(FormFault::Memory),
        Err(
            FormFault::BadForm { .. }
            | FormFault::LeftOut { .. }
            | FormFault::UnknownRequirement { .. },
        ) => Ok(false),
    }
}

/// Whether the first tree is a type, and not the word `number`.
fn begins_with_other_type(alloc: Global, trees: &[Tree]) -> Result<bool, FormFault>
    ensures { Gives result (said (spec.begins_with_other_type trees.now)) }
{
    match trees {
        [tree, ..] => is_other_type(alloc, tree),
        [] => Ok(false),
    }
}

/// Whether the group that begins here has another type than `number` behind its `-`.
fn is_of_other_type(alloc: Global, mut trees: &[Tree]) -> Result<bool, FormFault>
    ensures { Gives result (said (spec.is_of_other_type trees.entry.now)) }
{
    while let [tree, behind @ ..] = trees {
        if has_text(tree, b"-".as_slice()) {
            return begins_with_other_type(alloc, behind);
        }
        trees = behind;
    }
    Ok(false)
}

/// A function of a group that is begun or not, with what follows it.
fn function_item(
    alloc: Global,
    begun: bool,
    tree: &Tree,
    behind: &[Tree],
) -> Result<Header, FormFault>
    ensures { Gives result (spec.function_item begun tree.now behind.now) }
{
    if !begun {
        let is_left_out = is_of_other_type(alloc, behind)?;
        if is_left_out {
            return Err(FormFault::LeftOut {
                span: span_of(tree),
            });
        }
    }
    function_header(alloc, tree)
}

/// The functions that are read, and whether a group is begun.
#[derive(Drop)]
struct FunctionGroups {
    done: List<Header>,
    begun: bool,
}

/// Ends a group at its `-`, with the type behind that, and gives what follows.
fn end_group<'a>(
    alloc: Global,
    groups: &mut FunctionGroups,
    dash: Span,
    behind: &'a [Tree],
) -> Result<&'a [Tree], FormFault>
    ensures less { IfOk result (λ rest. length rest.now ≤ length behind.now) }
    ensures reads { reading.GoesOn groups.new
        (reading.from_dash groups.old dash behind.now) result }
{
    let [tree, rest @ ..] = behind else {
        return Err(FormFault::BadForm { span: dash });
    };
    if !groups.begun {
        return Err(FormFault::BadForm { span: dash });
    }
    types(alloc, tree)?;
    groups.begun = false;
    Ok(rest)
}

/// Reads one function more, or the end of a group, and gives what follows.
fn read_item<'a>(
    alloc: Global,
    groups: &mut FunctionGroups,
    tree: &Tree,
    behind: &'a [Tree],
) -> Result<&'a [Tree], FormFault>
    ensures less { IfOk result (λ rest. length rest.now ≤ length behind.now) }
    ensures reads { reading.GoesOn groups.new
        (reading.from_groups groups.old (tree.now ∷ behind.now)) result }
{
    if has_text(tree, b"-".as_slice()) {
        return end_group(alloc, groups, span_of(tree), behind);
    }
    let header = function_item(alloc, groups.begun, tree, behind)?;
    groups.done.push(header)?;
    groups.begun = true;
    Ok(behind)
}

/// The functions of a domain.
pub(crate) fn functions(alloc: Global, trees: &[Tree]) -> Result<List<Header>, FormFault>
    ensures { Gives result (spec.functions_of trees.now) }
{
    let mut groups = FunctionGroups {
        done: List::new(alloc),
        begun: false,
    };
    let mut trees = trees;
    while let [tree, behind @ ..] = trees {
        trees = read_item(alloc, &mut groups, tree, behind)?;
    }
    Ok(groups.done)
}

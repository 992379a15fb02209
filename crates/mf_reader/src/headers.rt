ghost use Rattle.std.specs.Prelude.{map};
ghost use Rattle.mf_reader.specs.Headers as spec;
ghost use Rattle.mf_reader.specs.Said.{Gives, mapped};
ghost use Rattle.mf_reader.specs.Seen.{seen};
ghost use Rattle.mf_reader.specs.Typed.{typed_variables};

use crate::atoms::{function, predicate};
use crate::fault::FormFault;
use crate::typed::{Listed, typed_list};
use mf_model::{Header, List, Tree, Word};
use std::alloc::Global;

/// A declaration of its name and its typed parameters.
fn header(alloc: Global, word: Word, parts: &[Tree]) -> Result<Header, FormFault>
    ensures { Gives result (mapped (spec.made_header word) (typed_variables (map seen parts.now))) }
{
    let parameters = typed_list(alloc, Listed::Variables, parts)?;
    Ok(Header { word, parameters })
}

/// The declaration of a predicate.
fn predicate_header(alloc: Global, tree: &Tree) -> Result<Header, FormFault>
    ensures { Gives result (spec.predicate_header tree.now) }
{
    match tree {
        Tree::Leaf { span, .. } => Err(FormFault::BadForm { span: *span }),
        Tree::Branch { items, span } => {
            let [head, parts @ ..] = items.as_slice() else {
                return Err(FormFault::BadForm { span: *span });
            };
            let Some(word) = predicate(alloc, head)? else {
                return Err(FormFault::BadForm { span: *span });
            };
            header(alloc, word, parts)
        }
    }
}

/// The declarations of the predicates.
pub(crate) fn predicate_headers(alloc: Global, trees: &[Tree]) -> Result<List<Header>, FormFault>
    ensures { Gives result (spec.predicate_headers trees.now) }
{
    let mut out = List::new(alloc);
    for tree in trees {
        let header = predicate_header(alloc, tree)?;
        out.push(header)?;
    }
    Ok(out)
}

/// The declaration of a function.
pub(crate) fn function_header(alloc: Global, tree: &Tree) -> Result<Header, FormFault>
    ensures { Gives result (spec.function_header tree.now) }
{
    match tree {
        Tree::Leaf { span, .. } => Err(FormFault::BadForm { span: *span }),
        Tree::Branch { items, span } => {
            let [head, parts @ ..] = items.as_slice() else {
                return Err(FormFault::BadForm { span: *span });
            };
            let Some(word) = function(alloc, head)? else {
                return Err(FormFault::BadForm { span: *span });
            };
            header(alloc, word, parts)
        }
    }
}

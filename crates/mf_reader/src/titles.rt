ghost use Rattle.mf_reader.specs.Said.{Gives};
ghost use Rattle.mf_reader.specs.Titles as spec;

use crate::fault::FormFault;
use crate::words::has_text;
use mf_model::{Span, Text, Tree};
use std::alloc::Global;

/// The text of a word of any kind.
fn any_word(alloc: Global, tree: &Tree) -> Result<Text, FormFault>
    ensures { Gives result (spec.any_word tree.now) }
{
    match tree {
        Tree::Leaf { text, .. } => Ok(text.copy(alloc)?),
        Tree::Branch { span, .. } => Err(FormFault::BadForm { span: *span }),
    }
}

/// The one word of any kind in a list of the span.
pub(crate) fn one_word(alloc: Global, span: Span, trees: &[Tree]) -> Result<Text, FormFault>
    ensures { Gives result (spec.one_word span trees.now) }
{
    match trees {
        [tree] => any_word(alloc, tree),
        _ => Err(FormFault::BadForm { span }),
    }
}

/// The name behind a head word, as in `(domain W)`.
pub(crate) fn title(alloc: Global, tree: &Tree, key: &[u8]) -> Result<Text, FormFault>
    ensures { Gives result (spec.title_of key.now tree.now) }
{
    match tree {
        Tree::Leaf { span, .. } => Err(FormFault::BadForm { span: *span }),
        Tree::Branch { items, span } => match items.as_slice() {
            [head, parts @ ..] => {
                if has_text(head, key) {
                    one_word(alloc, *span, parts)
                } else {
                    Err(FormFault::BadForm { span: *span })
                }
            }
            [] => Err(FormFault::BadForm { span: *span }),
        },
    }
}

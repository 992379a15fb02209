ghost use Rattle.std.specs.Prelude.{◌≡◌};
ghost use Rattle.mf_reader.specs.Requirements as spec;
ghost use Rattle.mf_reader.specs.Said.{Gives};

use crate::fault::FormFault;
use mf_model::{Kind, Tree};

/// Whether a text is a requirement that a file may declare.
#[tactic(auto, unfolding(crate::specs::Requirements::is_known))]
fn is_known(text: &[u8]) -> bool
    ensures { result ≡ spec.is_known text.now }
{
    text == b":strips".as_slice()
        || text == b":typing".as_slice()
        || text == b":negative-preconditions".as_slice()
        || text == b":disjunctive-preconditions".as_slice()
        || text == b":equality".as_slice()
        || text == b":existential-preconditions".as_slice()
        || text == b":universal-preconditions".as_slice()
        || text == b":quantified-preconditions".as_slice()
        || text == b":conditional-effects".as_slice()
        || text == b":fluents".as_slice()
        || text == b":numeric-fluents".as_slice()
        || text == b":action-costs".as_slice()
        || text == b":adl".as_slice()
}

/// A requirement that is known.
fn requirement(tree: &Tree) -> Result<(), FormFault>
    ensures { Gives result (spec.requirement_of tree.now) }
{
    match tree {
        Tree::Leaf {
            kind: Kind::Keyword,
            text,
            span,
        } => {
            if is_known(text.as_slice()) {
                Ok(())
            } else {
                Err(FormFault::UnknownRequirement { span: *span })
            }
        }
        Tree::Leaf { span, .. } | Tree::Branch { span, .. } => {
            Err(FormFault::BadForm { span: *span })
        }
    }
}

/// The requirements of a file, each of which is known.
pub(crate) fn requirements(trees: &[Tree]) -> Result<(), FormFault>
    ensures { Gives result (spec.requirements_of trees.now) }
{
    for tree in trees {
        requirement(tree)?;
    }
    Ok(())
}

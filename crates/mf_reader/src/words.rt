ghost use Rattle.std.specs.Prelude.{◌≡◌};
ghost use Rattle.mf_reader.specs.Faces as spec;
ghost use Rattle.mf_reader.specs.Said.{Gives, said};
ghost use Rattle.mf_reader.specs.Seen.{seen};

use crate::fault::FormFault;
use mf_model::{Kind, Span, Text, Tree, Word};
use std::alloc::Global;

/// The place of a tree.
pub(crate) fn span_of(tree: &Tree) -> Span
    ensures { result ≡ spec.span_of (seen tree.now).face }
{
    match tree {
        Tree::Leaf { span, .. } | Tree::Branch { span, .. } => *span,
    }
}

/// A word of its own.
pub(crate) fn word(alloc: Global, text: &Text, span: Span) -> Result<Word, FormFault>
    ensures { Gives result (said (spec.word text.now span)) }
{
    Ok(Word {
        text: text.copy(alloc)?,
        span,
    })
}

/// The name at a place.
pub(crate) fn name(alloc: Global, tree: &Tree) -> Result<Word, FormFault>
    ensures { Gives result (spec.name_at (seen tree.now).face) }
{
    match tree {
        Tree::Leaf {
            kind: Kind::Name,
            text,
            span,
        } => word(alloc, text, *span),
        _ => Err(FormFault::BadForm {
            span: span_of(tree),
        }),
    }
}

/// The variable at a place.
pub(crate) fn variable(alloc: Global, tree: &Tree) -> Result<Word, FormFault>
    ensures { Gives result (spec.variable_at (seen tree.now).face) }
{
    match tree {
        Tree::Leaf {
            kind: Kind::Variable,
            text,
            span,
        } => word(alloc, text, *span),
        _ => Err(FormFault::BadForm {
            span: span_of(tree),
        }),
    }
}

/// The name or variable at a place.
pub(crate) fn term(alloc: Global, tree: &Tree) -> Result<Word, FormFault>
    ensures { Gives result (spec.term_at (seen tree.now).face) }
{
    match tree {
        Tree::Leaf {
            kind: Kind::Name | Kind::Variable,
            text,
            span,
        } => word(alloc, text, *span),
        _ => Err(FormFault::BadForm {
            span: span_of(tree),
        }),
    }
}

/// Whether a tree is a name or a variable.
pub(crate) fn is_term(tree: &Tree) -> bool
    ensures { result ≡ spec.is_term (seen tree.now).face }
{
    match tree {
        Tree::Leaf {
            kind: Kind::Name | Kind::Variable,
            ..
        } => true,
        _ => false,
    }
}

/// Whether a tree is a word of the text.
pub(crate) fn has_text(tree: &Tree, text: &[u8]) -> bool
    ensures { result ≡ spec.has_text text.now (seen tree.now).face }
{
    match tree {
        Tree::Leaf { text: own, .. } => own.as_slice() == text,
        Tree::Branch { .. } => false,
    }
}

ghost use Rattle.std.specs.Prelude.{map};
ghost use Rattle.mf_reader.specs.Atoms as spec;
ghost use Rattle.mf_reader.specs.Heads.{function_of, predicate_of};
ghost use Rattle.mf_reader.specs.Said.{Gives, said};
ghost use Rattle.mf_reader.specs.Seen.{seen};

use crate::fault::FormFault;
use crate::heads::is_reserved;
use crate::words::{term, word};
use mf_model::{Kind, List, Span, Tree, Word};
use std::alloc::Global;

/// A predicate with its terms, and the span of the list.
#[derive(Drop)]
pub(crate) struct AtomForm {
    pub(crate) predicate: Word,
    pub(crate) terms: List<Word>,
    pub(crate) span: Span,
}

/// A function with its terms, and the span of the list.
#[derive(Drop)]
pub(crate) struct CallForm {
    pub(crate) function: Word,
    pub(crate) terms: List<Word>,
    pub(crate) span: Span,
}

/// The terms of an atom or a function.
pub(crate) fn terms(alloc: Global, trees: &[Tree]) -> Result<List<Word>, FormFault>
    ensures { Gives result (spec.terms_at (map seen trees.now)) }
{
    let mut out = List::new(alloc);
    for tree in trees {
        let word = term(alloc, tree)?;
        out.push(word)?;
    }
    Ok(out)
}

/// The name of a function, if it is one.
pub(crate) fn function(alloc: Global, tree: &Tree) -> Result<Option<Word>, FormFault>
    ensures { Gives result (said (function_of (seen tree.now).face)) }
{
    match tree {
        Tree::Leaf {
            kind: Kind::Name,
            text,
            span,
        } => {
            let function = word(alloc, text, *span)?;
            Ok(Some(function))
        }
        _ => Ok(None),
    }
}

/// The name of a predicate, if it is one.
pub(crate) fn predicate(alloc: Global, tree: &Tree) -> Result<Option<Word>, FormFault>
    ensures { Gives result (said (predicate_of (seen tree.now).face)) }
{
    match tree {
        Tree::Leaf {
            kind: Kind::Name,
            text,
            span,
        } => {
            if is_reserved(text.as_slice()) {
                return Ok(None);
            }
            let predicate = word(alloc, text, *span)?;
            Ok(Some(predicate))
        }
        _ => Ok(None),
    }
}

/// A predicate with its terms, from the items of a list.
pub(crate) fn atom_at(alloc: Global, span: Span, items: &[Tree]) -> Result<AtomForm, FormFault>
    ensures { Gives result (spec.atom_at span (map seen items.now)) }
{
    let [head, parts @ ..] = items else {
        return Err(FormFault::BadForm { span });
    };
    let Some(predicate) = predicate(alloc, head)? else {
        return Err(FormFault::BadForm { span });
    };
    let terms = terms(alloc, parts)?;
    Ok(AtomForm {
        predicate,
        terms,
        span,
    })
}

/// A predicate with its terms.
pub(crate) fn atom(alloc: Global, tree: &Tree) -> Result<AtomForm, FormFault>
    ensures { Gives result (seen tree.now).atom }
{
    match tree {
        Tree::Leaf { span, .. } => Err(FormFault::BadForm { span: *span }),
        Tree::Branch { items, span } => atom_at(alloc, *span, items.as_slice()),
    }
}

/// A function with its terms, from the items of a list.
pub(crate) fn call_at(alloc: Global, span: Span, items: &[Tree]) -> Result<CallForm, FormFault>
    ensures { Gives result (spec.call_at span (map seen items.now)) }
{
    let [head, parts @ ..] = items else {
        return Err(FormFault::BadForm { span });
    };
    let Some(function) = function(alloc, head)? else {
        return Err(FormFault::BadForm { span });
    };
    let terms = terms(alloc, parts)?;
    Ok(CallForm {
        function,
        terms,
        span,
    })
}

/// A function with its terms.
pub(crate) fn call(alloc: Global, tree: &Tree) -> Result<CallForm, FormFault>
    ensures { Gives result (seen tree.now).call }
{
    match tree {
        Tree::Leaf { span, .. } => Err(FormFault::BadForm { span: *span }),
        Tree::Branch { items, span } => call_at(alloc, *span, items.as_slice()),
    }
}

ghost use Rattle.std.specs.Prelude.{◌≡◌};
ghost use Rattle.mf_reader.specs.InitItems as reading;
ghost use Rattle.mf_reader.specs.Inits as spec;
ghost use Rattle.mf_reader.specs.Said.{Gives};
ghost use Rattle.mf_reader.specs.Seen.{seen};

use crate::atoms::{AtomForm, CallForm, atom, function};
use crate::fault::FormFault;
use crate::typed::names;
use crate::words::{is_term, word};
use mf_model::{Kind, List, RawCond, RawValue, Span, Tree, Word};
use sqlite_items::Boxed;
use std::alloc::Global;

/// The head of a list in the init.
#[derive(Clone, Copy)]
pub(crate) enum InitHead {
    At,
    Equal,
    Not,
    /// Any other: the head of an atom, if of any form.
    Other,
}

/// An item of the init.
#[derive(Drop)]
pub(crate) enum InitItem {
    /// An atom, or the `not` of an atom.
    Fact(RawCond),
    Value(RawValue),
}

/// The items of the init.
#[derive(Drop)]
pub(crate) struct Starts {
    pub(crate) atoms: List<RawCond>,
    pub(crate) values: List<RawValue>,
}

/// The number at a place.
fn number(alloc: Global, tree: &Tree) -> Result<Word, FormFault>
    ensures { Gives result (spec.number_at (seen tree.now).face) }
{
    match tree {
        Tree::Leaf {
            kind: Kind::Number,
            text,
            span,
        } => word(alloc, text, *span),
        Tree::Leaf { span, .. } | Tree::Branch { span, .. } => {
            Err(FormFault::BadForm { span: *span })
        }
    }
}

/// A function of objects.
fn start_term(alloc: Global, tree: &Tree) -> Result<CallForm, FormFault>
    ensures { Gives result (spec.start_term tree.now) }
{
    match tree {
        Tree::Leaf { span, .. } => Err(FormFault::BadForm { span: *span }),
        Tree::Branch { items, span } => {
            let [head, parts @ ..] = items.as_slice() else {
                return Err(FormFault::BadForm { span: *span });
            };
            let Some(function) = function(alloc, head)? else {
                return Err(FormFault::BadForm { span: *span });
            };
            let terms = names(alloc, parts)?;
            Ok(CallForm {
                function,
                terms,
                span: *span,
            })
        }
    }
}

/// Whether one of two trees alone is a name or a variable.
fn differ(left: &Tree, right: &Tree) -> bool
    ensures { result ≡ spec.differ (seen left.now).face (seen right.now).face }
{
    if is_term(left) {
        !is_term(right)
    } else {
        is_term(right)
    }
}

/// The value of a function at the start, from what stands behind its `=`.
fn init_value(alloc: Global, span: Span, parts: &[Tree]) -> Result<InitItem, FormFault>
    ensures { Gives result (spec.init_value span parts.now) }
{
    let [left, right] = parts else {
        return Err(FormFault::BadForm { span });
    };
    if differ(left, right) {
        return Err(FormFault::BadForm { span });
    }
    let CallForm {
        function,
        terms,
        ..
    } = start_term(alloc, left)?;
    let value = number(alloc, right)?;
    Ok(InitItem::Value(RawValue {
        function,
        objects: terms,
        value,
    }))
}

/// An atom of the start.
fn init_atom(alloc: Global, tree: &Tree) -> Result<InitItem, FormFault>
    ensures { Gives result (spec.init_atom tree.now) }
{
    let AtomForm {
        predicate,
        terms,
        span,
    } = atom(alloc, tree)?;
    Ok(InitItem::Fact(RawCond::Atom {
        predicate,
        terms,
        span,
    }))
}

/// The atom behind a `not`.
fn init_not(alloc: Global, span: Span, parts: &[Tree]) -> Result<InitItem, FormFault>
    ensures { Gives result (spec.init_not span parts.now) }
{
    let [tree] = parts else {
        return Err(FormFault::BadForm { span });
    };
    let AtomForm {
        predicate,
        terms,
        span: inner,
    } = atom(alloc, tree)?;
    let part = Boxed::new(
        alloc,
        RawCond::Atom {
            predicate,
            terms,
            span: inner,
        },
    )?;
    Ok(InitItem::Fact(RawCond::Not { part, span }))
}

/// Whether the first tree is a number.
fn begins_with_number(trees: &[Tree]) -> bool
    ensures { result ≡ spec.begins_with_number trees.now }
{
    match trees {
        [
            Tree::Leaf {
                kind: Kind::Number,
                ..
            },
            ..
        ] => true,
        _ => false,
    }
}

/// The head of a list in the init by its text.
#[tactic(auto, unfolding(crate::specs::Inits::init_head))]
fn init_head(text: &[u8]) -> InitHead
    ensures { result ≡ spec.init_head text.now }
{
    if text == b"at".as_slice() {
        InitHead::At
    } else if text == b"=".as_slice() {
        InitHead::Equal
    } else if text == b"not".as_slice() {
        InitHead::Not
    } else {
        InitHead::Other
    }
}

/// The head of a list in the init.
fn init_head_of(tree: &Tree) -> InitHead
    ensures { result ≡ spec.init_head_of (seen tree.now).face }
{
    match tree {
        Tree::Leaf { text, .. } => init_head(text.as_slice()),
        Tree::Branch { .. } => InitHead::Other,
    }
}

/// An item of the init, which is the tree, by its head and what stands behind that.
fn item_by(
    alloc: Global,
    head: InitHead,
    span: Span,
    parts: &[Tree],
    tree: &Tree,
) -> Result<InitItem, FormFault>
    ensures { Gives result (spec.item_by head span parts.now tree.now) }
{
    match head {
        InitHead::At => {
            if begins_with_number(parts) {
                Err(FormFault::LeftOut { span })
            } else {
                init_atom(alloc, tree)
            }
        }
        InitHead::Equal => init_value(alloc, span, parts),
        InitHead::Not => init_not(alloc, span, parts),
        InitHead::Other => init_atom(alloc, tree),
    }
}

/// An item of the init.
fn init_item(alloc: Global, tree: &Tree) -> Result<InitItem, FormFault>
    ensures { Gives result (spec.init_item tree.now) }
{
    match tree {
        Tree::Leaf { span, .. } => Err(FormFault::BadForm { span: *span }),
        Tree::Branch { items, span } => {
            let [head, parts @ ..] = items.as_slice() else {
                return Err(FormFault::BadForm { span: *span });
            };
            item_by(alloc, init_head_of(head), *span, parts, tree)
        }
    }
}

/// Puts an item behind those that are read.
fn add_item(starts: &mut Starts, item: InitItem) -> Result<(), FormFault>
    ensures { reading.Adds result starts.new (reading.with_last starts.old item) }
{
    match item {
        InitItem::Fact(fact) => {
            starts.atoms.push(fact)?;
            Ok(())
        }
        InitItem::Value(value) => {
            starts.values.push(value)?;
            Ok(())
        }
    }
}

/// The atoms and the values of the init.
#[tactic(auto, using(crate::proofs::InitSteps::joined_item))]
pub(crate) fn init(alloc: Global, trees: &[Tree]) -> Result<Starts, FormFault>
    ensures { Gives result (spec.init_of trees.now) }
{
    let mut starts = Starts {
        atoms: List::new(alloc),
        values: List::new(alloc),
    };
    for tree in trees {
        let item = init_item(alloc, tree)?;
        add_item(&mut starts, item)?;
    }
    Ok(starts)
}

ghost use Rattle.std.specs.Prelude.{◌≡◌};
ghost use Rattle.mf_reader.specs.Heads as spec;
ghost use Rattle.mf_reader.specs.Seen.{seen};

use mf_model::{Op, Relation, Tree};

/// The head of a list where a condition stands.
#[derive(Clone, Copy)]
pub(crate) enum CondHead {
    Not,
    And,
    Or,
    Imply,
    All,
    Any,
    /// `=`, between objects or between numbers.
    Equal,
    /// One of the other relations between numbers.
    Compare(Relation),
    Preference,
    /// Any other: the head of an atom, if of any form.
    Other,
}

/// The head of a list where an expression stands.
#[derive(Clone, Copy)]
pub(crate) enum ExprHead {
    Sum,
    Product,
    /// `-`, before one part or between two.
    Minus,
    Quotient,
    /// No operation: the head of a function term, if of any form.
    Other,
}

/// The head of a list where an effect stands.
#[derive(Clone, Copy)]
pub(crate) enum EffectHead {
    Not,
    And,
    All,
    When,
    Change(Op),
    /// Any other: the head of an atom, if of any form.
    Other,
}

/// The head of a condition by its text.
#[tactic(auto, unfolding(crate::specs::Heads::cond_head))]
fn cond_head(text: &[u8]) -> CondHead
    ensures { result ≡ spec.cond_head text.now }
{
    if text == b"not".as_slice() {
        CondHead::Not
    } else if text == b"and".as_slice() {
        CondHead::And
    } else if text == b"or".as_slice() {
        CondHead::Or
    } else if text == b"imply".as_slice() {
        CondHead::Imply
    } else if text == b"forall".as_slice() {
        CondHead::All
    } else if text == b"exists".as_slice() {
        CondHead::Any
    } else if text == b"=".as_slice() {
        CondHead::Equal
    } else if text == b"<".as_slice() {
        CondHead::Compare(Relation::Less)
    } else if text == b"<=".as_slice() {
        CondHead::Compare(Relation::AtMost)
    } else if text == b">=".as_slice() {
        CondHead::Compare(Relation::AtLeast)
    } else if text == b">".as_slice() {
        CondHead::Compare(Relation::More)
    } else if text == b"preference".as_slice() {
        CondHead::Preference
    } else {
        CondHead::Other
    }
}

/// The head of a list where a condition stands.
pub(crate) fn cond_head_of(tree: &Tree) -> CondHead
    ensures { result ≡ spec.cond_head_of (seen tree.now).face }
{
    match tree {
        Tree::Leaf { text, .. } => cond_head(text.as_slice()),
        Tree::Branch { .. } => CondHead::Other,
    }
}

/// The head of an expression by its text.
#[tactic(auto, unfolding(crate::specs::Heads::expr_head))]
fn expr_head(text: &[u8]) -> ExprHead
    ensures { result ≡ spec.expr_head text.now }
{
    if text == b"+".as_slice() {
        ExprHead::Sum
    } else if text == b"*".as_slice() {
        ExprHead::Product
    } else if text == b"-".as_slice() {
        ExprHead::Minus
    } else if text == b"/".as_slice() {
        ExprHead::Quotient
    } else {
        ExprHead::Other
    }
}

/// The head of a list where an expression stands.
pub(crate) fn expr_head_of(tree: &Tree) -> ExprHead
    ensures { result ≡ spec.expr_head_of (seen tree.now).face }
{
    match tree {
        Tree::Leaf { text, .. } => expr_head(text.as_slice()),
        Tree::Branch { .. } => ExprHead::Other,
    }
}

/// The head of an effect by its text.
#[tactic(auto, unfolding(crate::specs::Heads::effect_head))]
fn effect_head(text: &[u8]) -> EffectHead
    ensures { result ≡ spec.effect_head text.now }
{
    if text == b"not".as_slice() {
        EffectHead::Not
    } else if text == b"and".as_slice() {
        EffectHead::And
    } else if text == b"forall".as_slice() {
        EffectHead::All
    } else if text == b"when".as_slice() {
        EffectHead::When
    } else if text == b"assign".as_slice() {
        EffectHead::Change(Op::Assign)
    } else if text == b"increase".as_slice() {
        EffectHead::Change(Op::Increase)
    } else if text == b"decrease".as_slice() {
        EffectHead::Change(Op::Decrease)
    } else if text == b"scale-up".as_slice() {
        EffectHead::Change(Op::ScaleUp)
    } else if text == b"scale-down".as_slice() {
        EffectHead::Change(Op::ScaleDown)
    } else {
        EffectHead::Other
    }
}

/// The head of a list where an effect stands.
pub(crate) fn effect_head_of(tree: &Tree) -> EffectHead
    ensures { result ≡ spec.effect_head_of (seen tree.now).face }
{
    match tree {
        Tree::Leaf { text, .. } => effect_head(text.as_slice()),
        Tree::Branch { .. } => EffectHead::Other,
    }
}

/// Whether a text is a head of conditions, effects or types that names no predicate.
#[tactic(auto, unfolding(crate::specs::Heads::is_reserved))]
pub(crate) fn is_reserved(text: &[u8]) -> bool
    ensures { result ≡ spec.is_reserved text.now }
{
    text == b"not".as_slice()
        || text == b"and".as_slice()
        || text == b"or".as_slice()
        || text == b"imply".as_slice()
        || text == b"forall".as_slice()
        || text == b"exists".as_slice()
        || text == b"when".as_slice()
        || text == b"either".as_slice()
        || text == b"assign".as_slice()
        || text == b"increase".as_slice()
        || text == b"decrease".as_slice()
        || text == b"scale-up".as_slice()
        || text == b"scale-down".as_slice()
}

ghost use Rattle.std.specs.Prelude.{◌≡◌};
ghost use Rattle.mf_reader.specs.Keys as spec;
ghost use Rattle.mf_reader.specs.Seen.{seen};

use mf_model::Tree;

/// The keyword of a section of a domain.
#[derive(Clone, Copy)]
pub(crate) enum DomainKey {
    Requirements,
    Types,
    Constants,
    Predicates,
    Functions,
    Action,
    /// A section that is left out.
    LeftOut,
    /// No keyword of a section.
    Other,
}

/// The keyword of a section of a problem.
#[derive(Clone, Copy)]
pub(crate) enum ProblemKey {
    Domain,
    Requirements,
    Objects,
    Init,
    Goal,
    Metric,
    /// A section that is left out.
    LeftOut,
    /// No keyword of a section.
    Other,
}

/// The keyword of a part of an action.
#[derive(Clone, Copy)]
pub(crate) enum PartKey {
    Parameters,
    Precondition,
    Effect,
    /// No keyword of a part.
    Other,
}

/// Whether a text is the keyword of a section that is left out, in domains and in problems.
#[tactic(auto, unfolding(crate::specs::Keys::is_left_out))]
fn is_left_out(text: &[u8]) -> bool
    ensures { result ≡ spec.is_left_out text.now }
{
    text == b":durative-action".as_slice()
        || text == b":derived".as_slice()
        || text == b":constraints".as_slice()
        || text == b":length".as_slice()
}

/// The keyword of a section of a domain by its text.
#[tactic(auto, unfolding(crate::specs::Keys::domain_key))]
fn domain_key(text: &[u8]) -> DomainKey
    ensures { result ≡ spec.domain_key text.now }
{
    if text == b":requirements".as_slice() {
        DomainKey::Requirements
    } else if text == b":types".as_slice() {
        DomainKey::Types
    } else if text == b":constants".as_slice() {
        DomainKey::Constants
    } else if text == b":predicates".as_slice() {
        DomainKey::Predicates
    } else if text == b":functions".as_slice() {
        DomainKey::Functions
    } else if text == b":action".as_slice() {
        DomainKey::Action
    } else if is_left_out(text) {
        DomainKey::LeftOut
    } else {
        DomainKey::Other
    }
}

/// The keyword of a section of a domain.
pub(crate) fn domain_key_of(tree: &Tree) -> DomainKey
    ensures { result ≡ spec.domain_key_of (seen tree.now).face }
{
    match tree {
        Tree::Leaf { text, .. } => domain_key(text.as_slice()),
        Tree::Branch { .. } => DomainKey::Other,
    }
}

/// The keyword of a section of a problem by its text.
#[tactic(auto, unfolding(crate::specs::Keys::problem_key))]
fn problem_key(text: &[u8]) -> ProblemKey
    ensures { result ≡ spec.problem_key text.now }
{
    if text == b":domain".as_slice() {
        ProblemKey::Domain
    } else if text == b":requirements".as_slice() {
        ProblemKey::Requirements
    } else if text == b":objects".as_slice() {
        ProblemKey::Objects
    } else if text == b":init".as_slice() {
        ProblemKey::Init
    } else if text == b":goal".as_slice() {
        ProblemKey::Goal
    } else if text == b":metric".as_slice() {
        ProblemKey::Metric
    } else if is_left_out(text) {
        ProblemKey::LeftOut
    } else {
        ProblemKey::Other
    }
}

/// The keyword of a section of a problem.
pub(crate) fn problem_key_of(tree: &Tree) -> ProblemKey
    ensures { result ≡ spec.problem_key_of (seen tree.now).face }
{
    match tree {
        Tree::Leaf { text, .. } => problem_key(text.as_slice()),
        Tree::Branch { .. } => ProblemKey::Other,
    }
}

/// The keyword of a part of an action by its text.
#[tactic(auto, unfolding(crate::specs::Keys::part_key))]
fn part_key(text: &[u8]) -> PartKey
    ensures { result ≡ spec.part_key text.now }
{
    if text == b":parameters".as_slice() {
        PartKey::Parameters
    } else if text == b":precondition".as_slice() {
        PartKey::Precondition
    } else if text == b":effect".as_slice() {
        PartKey::Effect
    } else {
        PartKey::Other
    }
}

/// The keyword of a part of an action.
pub(crate) fn part_key_of(tree: &Tree) -> PartKey
    ensures { result ≡ spec.part_key_of (seen tree.now).face }
{
    match tree {
        Tree::Leaf { text, .. } => part_key(text.as_slice()),
        Tree::Branch { .. } => PartKey::Other,
    }
}

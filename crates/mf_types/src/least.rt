ghost use Rattle.std.specs.Prelude.{◌≡◌};
ghost use Rattle.mf_types.specs.Faults as spec;

use mf_model::{FileKind, Span, Word};

/// What is wrong at a place, in the order in which faults at one place are named.
#[derive(Clone, Copy, Debug)]
pub enum FaultKind {
    Twice,
    TypeCycle,
    UnknownName,
    WrongCount,
    WrongType,
    TooMany,
    WideNumber,
    NotLinear,
}

/// A fault with its place.
#[derive(Clone, Copy, Debug)]
pub struct Fault {
    pub kind: FaultKind,
    pub file: FileKind,
    pub span: Span,
}

fn rank(kind: FaultKind) -> u8
    ensures { result ≡ spec.rank kind }
{
    match kind {
        FaultKind::Twice => 0,
        FaultKind::TypeCycle => 1,
        FaultKind::UnknownName => 2,
        FaultKind::WrongCount => 3,
        FaultKind::WrongType => 4,
        FaultKind::TooMany => 5,
        FaultKind::WideNumber => 6,
        FaultKind::NotLinear => 7,
    }
}

fn file_rank(file: FileKind) -> u8
    ensures { result ≡ spec.file_rank file }
{
    match file {
        FileKind::DomainFile => 0,
        FileKind::ProblemFile => 1,
    }
}

/// Whether a fault is named before another one, or at the same rank.
fn is_before(one: Fault, other: Fault) -> bool
    ensures { result ≡ spec.is_before one other }
{
    let files = (file_rank(one.file), file_rank(other.file));
    if files.0 != files.1 {
        return files.0 < files.1;
    }
    if one.span.start != other.span.start {
        return one.span.start < other.span.start;
    }
    rank(one.kind) <= rank(other.kind)
}

/// The one of two faults that is named first.
fn least(best: Option<Fault>, fault: Fault) -> Option<Fault>
    ensures { result ≡ spec.least best fault }
{
    match best {
        None => Some(fault),
        Some(other) if is_before(other, fault) => Some(other),
        Some(_) => Some(fault),
    }
}

/// Whether the best fault so far stands in an earlier file than a word, or earlier in its file: no
/// fault at the word comes before it then.
pub(crate) fn stands_before(best: Option<Fault>, file: FileKind, word: &Word) -> bool
    ensures { result ≡ spec.stands_before best file word.now }
{
    let Some(fault) = best else {
        return false;
    };
    if file_rank(fault.file) != file_rank(file) {
        return file_rank(fault.file) < file_rank(file);
    }
    fault.span.start < word.span.start
}

/// The best fault so far or one at a word.
pub(crate) fn at_word(
    best: Option<Fault>,
    kind: FaultKind,
    file: FileKind,
    word: &Word,
) -> Option<Fault>
    ensures { result ≡ spec.after best (spec.at_word kind file word.now) }
{
    at_span(best, kind, file, word.span)
}

/// The best fault so far or one at a span.
pub(crate) fn at_span(
    best: Option<Fault>,
    kind: FaultKind,
    file: FileKind,
    span: Span,
) -> Option<Fault>
    ensures { result ≡ spec.after best (spec.at_span kind file span) }
{
    least(best, Fault { kind, file, span })
}

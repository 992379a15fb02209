ghost use Rattle.std.specs.Prelude.{◌≡◌, ◌≤◌, map};
ghost use Rattle.mf_types.specs.Expressions as spec;
ghost use Rattle.mf_types.specs.Faults.{after};
ghost use Rattle.mf_types.specs.Sites.{site_of};

use crate::arguments::{function, parameters_of_function};
use crate::least::{Fault, FaultKind, at_span, at_word};
use crate::scope::Scope;
use crate::site::Site;
use mf_fraction::{NumberFault, read_decimal};
use mf_model::{FileKind, RawExpr, Span, Word};

/// Whether an expression reads constant functions alone, and the best fault so far.
#[derive(Clone, Copy)]
pub(crate) struct Examined {
    pub(crate) constant: bool,
    pub(crate) best: Option<Fault>,
}

/// How many parts change, and the best fault so far.
#[derive(Clone, Copy)]
struct Parts {
    changing: usize,
    best: Option<Fault>,
}

/// The fault of a number that doesn't fit.
pub(crate) fn wide_at(best: Option<Fault>, file: FileKind, word: &Word) -> Option<Fault>
    ensures { result ≡ after best (spec.wide_at file word.now) }
{
    match read_decimal(word.text.as_slice()) {
        Err(NumberFault::Wide) => at_word(best, FaultKind::WideNumber, file, word),
        Err(NumberFault::NotANumber) => best,
        Ok(_) => best,
    }
}

/// The fault of `total-time` where a function of that name has parameters.
fn steps(site: &Site<'_>, best: Option<Fault>, span: Span) -> Option<Fault>
    ensures { result ≡ after best (spec.total_time_faults (site_of site.now) span) }
{
    match parameters_of_function(site.tables, b"total-time".as_slice()) {
        Some([]) => best,
        Some(_) => at_span(best, FaultKind::WrongCount, site.file, span),
        None => best,
    }
}

/// The fault of a list that must be linear and isn't.
pub(crate) fn linear(
    site: &Site<'_>,
    best: Option<Fault>,
    span: Span,
    is_linear: bool,
) -> Option<Fault>
    ensures { result ≡ after best (spec.linear_faults (site_of site.now) span is_linear) }
{
    if site.linear && !is_linear {
        return at_span(best, FaultKind::NotLinear, site.file, span);
    }
    best
}

/// The faults of an expression, and whether it is constant.
#[cycle(expression)]
#[tactic(auto, using(crate::proofs::After::after_append))]
pub(crate) fn expression(
    site: &Site<'_>,
    best: Option<Fault>,
    scope: &Scope,
    value: &RawExpr,
) -> Examined
    ensures { result ≡ spec.examined best scope.now (spec.seen (site_of site.now) value.now) }
{
    match value {
        RawExpr::Number { word, .. } => Examined {
            constant: true,
            best: wide_at(best, site.file, word),
        },
        RawExpr::Function {
            function: name,
            terms,
            ..
        } => Examined {
            constant: !site.tables.is_changed(name.text.as_slice()),
            best: function(site, best, scope, name, terms.as_slice()),
        },
        RawExpr::Sum { parts, .. } => sum(site, best, scope, parts.as_slice()),
        RawExpr::Difference { left, right, .. } => {
            difference(site, best, scope, left.get(), right.get())
        }
        RawExpr::Negative { part, .. } => expression(site, best, scope, part.get()),
        RawExpr::Product { parts, span } => product(site, best, scope, parts.as_slice(), *span),
        RawExpr::Quotient { left, right, span } => {
            quotient(site, best, scope, left.get(), right.get(), *span)
        }
        RawExpr::TotalTime { span } => Examined {
            constant: false,
            best: steps(site, best, *span),
        },
    }
}

#[cycle(expression)]
fn sum(site: &Site<'_>, best: Option<Fault>, scope: &Scope, parts: &[RawExpr]) -> Examined
    ensures { result ≡ spec.examined best scope.now
        (spec.sum (map (spec.seen (site_of site.now)) parts.now)) }
{
    let Parts { changing, best } = expressions(site, best, scope, parts);
    Examined {
        constant: changing == 0,
        best,
    }
}

#[cycle(expression)]
#[tactic(auto, using(crate::proofs::After::after_append))]
fn difference(
    site: &Site<'_>,
    best: Option<Fault>,
    scope: &Scope,
    left: &RawExpr,
    right: &RawExpr,
) -> Examined
    ensures { result ≡ spec.examined best scope.now
        (spec.difference (spec.seen (site_of site.now) left.now)
        (spec.seen (site_of site.now) right.now)) }
{
    let left = expression(site, best, scope, left);
    let right = expression(site, left.best, scope, right);
    Examined {
        constant: left.constant && right.constant,
        best: right.best,
    }
}

#[cycle(expression)]
#[tactic(auto, using(crate::proofs::After::after_append))]
fn product(
    site: &Site<'_>,
    best: Option<Fault>,
    scope: &Scope,
    parts: &[RawExpr],
    span: Span,
) -> Examined
    ensures { result ≡ spec.examined best scope.now
        (spec.product (site_of site.now) span
        (map (spec.seen (site_of site.now)) parts.now)) }
{
    let Parts { changing, best } = expressions(site, best, scope, parts);
    Examined {
        constant: changing == 0,
        best: linear(site, best, span, changing <= 1),
    }
}

#[cycle(expression)]
#[tactic(auto, using(crate::proofs::After::after_append))]
fn quotient(
    site: &Site<'_>,
    best: Option<Fault>,
    scope: &Scope,
    left: &RawExpr,
    right: &RawExpr,
    span: Span,
) -> Examined
    ensures { result ≡ spec.examined best scope.now
        (spec.quotient (site_of site.now) span (spec.seen (site_of site.now) left.now)
        (spec.seen (site_of site.now) right.now)) }
{
    let left = expression(site, best, scope, left);
    let right = expression(site, left.best, scope, right);
    Examined {
        constant: left.constant && right.constant,
        best: linear(site, right.best, span, right.constant),
    }
}

#[cycle(expression)]
#[tactic(auto, using(crate::proofs::After::after_append))]
fn expressions(site: &Site<'_>, mut best: Option<Fault>, scope: &Scope, parts: &[RawExpr]) -> Parts
    ensures changing { result.changing ≡
        spec.changing (map (spec.seen (site_of site.now)) parts.now) }
    ensures best { result.best ≡ after best
        (spec.part_faults (map (spec.seen (site_of site.now)) parts.now) scope.now) }
{
    let mut changing = 0;
    for part in parts {
        let next = expression(site, best, scope, part);
        changing += changes(next.constant);
        best = next.best;
    }
    Parts { changing, best }
}

fn changes(constant: bool) -> usize
    ensures value { result ≡ spec.changes constant }
    ensures one { result ≤ 1 }
{
    if constant { 0 } else { 1 }
}

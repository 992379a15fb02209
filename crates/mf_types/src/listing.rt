ghost use Rattle.std.specs.Prelude.{◌≡◌, ◌∷◌, [], map, IfOk, OnOk};
ghost use Rattle.mf_types.specs.Declarations as spec;
ghost use Rattle.mf_types.specs.Faults.{after};
ghost use Rattle.mf_types.specs.Names.{text_of};
ghost use Rattle.mf_types.specs.Tables.{entered, pointed};

use crate::entering::enter;
use crate::least::{Fault, FaultKind, at_word};
use mf_model::{FileKind, Word};
use mf_names::Names;
use std::alloc::{AllocError, Global};

const MOST_OBJECTS: usize = 65_535;

/// The faults of words of which the name stood before; their names go behind the others.
#[tactic(auto, using(crate::proofs::After::after_append))]
fn repeats(
    alloc: Global,
    mut best: Option<Fault>,
    file: FileKind,
    names: &mut Names,
    words: &[&Word],
) -> Result<Option<Fault>, AllocError>
    ensures faults { IfOk result
        (λ fault. fault ≡ after best (spec.repeats file names.old (pointed words.now))) }
    ensures names { OnOk result (names.new ≡ entered names.old (map text_of (pointed words.now))) }
{
    for word in words {
        best = repeated_at(alloc, best, file, names, word)?;
    }
    Ok(best)
}

fn repeated_at(
    alloc: Global,
    best: Option<Fault>,
    file: FileKind,
    names: &mut Names,
    word: &Word,
) -> Result<Option<Fault>, AllocError>
    ensures faults { IfOk result
        (λ fault. fault ≡ after best (spec.repeated_at file names.old word.now)) }
    ensures names { OnOk result (names.new ≡ entered names.old (word.now.text ∷ [])) }
{
    if enter(alloc, names, &word.text)? {
        return Ok(best);
    }
    Ok(at_word(best, FaultKind::Twice, file, word))
}

/// The fault of the first word beyond a limit.
pub(crate) fn beyond(
    best: Option<Fault>,
    file: FileKind,
    limit: usize,
    words: &[&Word],
) -> Option<Fault>
    ensures { result ≡ after best (spec.beyond file limit (pointed words.now)) }
{
    match words.get(limit) {
        Some(word) => at_word(best, FaultKind::TooMany, file, word),
        None => best,
    }
}

/// The faults of words of which the name stood before in the list.
pub(crate) fn repeats_alone(
    alloc: Global,
    best: Option<Fault>,
    file: FileKind,
    words: &[&Word],
) -> Result<Option<Fault>, AllocError>
    ensures { IfOk result (λ fault. fault ≡ after best (spec.repeats file [] (pointed words.now))) }
{
    let mut names = Names::new(alloc);
    repeats(alloc, best, file, &mut names, words)
}

/// The faults of one list with a space of names of its own.
#[tactic(auto, using(crate::proofs::After::after_append))]
pub(crate) fn list_faults(
    alloc: Global,
    best: Option<Fault>,
    file: FileKind,
    limit: usize,
    words: &[&Word],
) -> Result<Option<Fault>, AllocError>
    ensures { IfOk result
        (λ fault. fault ≡ after best (spec.list_faults file limit (pointed words.now))) }
{
    let best = repeats_alone(alloc, best, file, words)?;
    Ok(beyond(best, file, limit, words))
}

/// The faults of constants and objects, which have one space of names and one limit.
#[tactic(auto, using(crate::proofs::After::after_append))]
pub(crate) fn object_list_faults(
    alloc: Global,
    best: Option<Fault>,
    constants: &[&Word],
    objects: &[&Word],
) -> Result<Option<Fault>, AllocError>
    ensures { IfOk result
        (λ fault. fault ≡ after best
        (spec.object_list_faults (pointed constants.now) (pointed objects.now))) }
{
    let mut names = Names::new(alloc);
    let best = repeats(alloc, best, FileKind::DomainFile, &mut names, constants)?;
    let best = beyond(best, FileKind::DomainFile, MOST_OBJECTS, constants);
    let best = repeats(alloc, best, FileKind::ProblemFile, &mut names, objects)?;
    Ok(beyond_behind(
        best,
        FileKind::ProblemFile,
        MOST_OBJECTS,
        constants.len(),
        objects,
    ))
}

/// The fault of the first word beyond a limit, behind so many others.
pub(crate) fn beyond_behind(
    best: Option<Fault>,
    file: FileKind,
    limit: usize,
    front: usize,
    words: &[&Word],
) -> Option<Fault>
    ensures { result ≡ after best (spec.beyond_behind file limit front (pointed words.now)) }
{
    if front > limit {
        return best;
    }
    beyond(best, file, limit - front, words)
}

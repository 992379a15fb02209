ghost use Rattle.std.specs.Prelude.{◌≡◌, IfOk};
ghost use Rattle.std.specs.List.{flat_map};
ghost use Rattle.mf_types.specs.Faults.{after};
ghost use Rattle.mf_types.specs.Quantified as spec;
ghost use Rattle.mf_types.specs.Sites.{site_of};

use crate::least::{Fault, FaultKind, at_word};
use crate::listing::{beyond_behind, repeats_alone};
use crate::site::Site;
use crate::words::item_words;
use mf_model::{TypedList, Word};
use std::alloc::{AllocError, Global};

/// The most variables in scope: parameters, and variables of quantifiers, hidden ones too.
pub(crate) const MOST_VARIABLES: usize = 64;

/// The faults in the list of a quantifier's variables, where `outer` are in scope before.
#[tactic(auto, using(crate::proofs::After::after_append))]
pub(crate) fn variables(
    alloc: Global,
    site: &Site<'_>,
    best: Option<Fault>,
    outer: usize,
    items: &TypedList,
) -> Result<Option<Fault>, AllocError>
    ensures { IfOk result (λ b. b ≡ after best
        (spec.variable_faults (site_of site.now) outer items.now)) }
{
    let words = item_words(alloc, items.as_slice())?;
    let best = repeats_alone(alloc, best, site.file, words.as_slice())?;
    let best = beyond_behind(best, site.file, MOST_VARIABLES, outer, words.as_slice());
    Ok(item_types(site, best, items))
}

/// The faults of the types of items, where those of a group are looked at once.
pub(crate) fn item_types(
    site: &Site<'_>,
    mut best: Option<Fault>,
    items: &TypedList,
) -> Option<Fault>
    ensures { result ≡ after best (flat_map (spec.item_faults (site_of site.now)) items.now) }
{
    for (n, item) in items.as_slice().iter().enumerate() {
        if !items.shares_types(n) {
            best = type_words(site, best, item.types.as_slice());
        }
    }
    best
}

#[tactic(auto, using(crate::proofs::After::after_append))]
fn type_words(site: &Site<'_>, mut best: Option<Fault>, words: &[Word]) -> Option<Fault>
    ensures { result ≡ after best (flat_map (spec.type_word_faults (site_of site.now)) words.now) }
{
    for word in words {
        best = type_word(site, best, word);
    }
    best
}

fn type_word(site: &Site<'_>, best: Option<Fault>, word: &Word) -> Option<Fault>
    ensures { result ≡ after best (spec.type_word_faults (site_of site.now) word.now) }
{
    match site.tables.find_type(word.text.as_slice()) {
        Some(_) => best,
        None => at_word(best, FaultKind::UnknownName, site.file, word),
    }
}

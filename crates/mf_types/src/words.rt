ghost use Rattle.std.specs.Prelude.{◌≡◌, [], ◌∷◌, ◌++◌, IfOk, OnOk};
ghost use Rattle.mf_types.specs.Declarations as spec;
ghost use Rattle.mf_types.specs.Names.{kept_types};
ghost use Rattle.mf_types.specs.Tables.{pointed};

use crate::kept::says_nothing;
use mf_model::{Header, RawAction, Typed, Word};
use std::alloc::{AllocError, Global};

pub(crate) fn item_words<'a>(alloc: Global, items: &'a [Typed]) -> Result<Vec<&'a Word>, AllocError>
    ensures { IfOk result (λ words. pointed words.items ≡ spec.item_words items.now) }
{
    let mut words = Vec::new(alloc);
    for item in items {
        words.push(&item.word)?;
    }
    Ok(words)
}

pub(crate) fn header_words<'a>(
    alloc: Global,
    headers: &'a [Header],
) -> Result<Vec<&'a Word>, AllocError>
    ensures { IfOk result (λ words. pointed words.items ≡ spec.header_words headers.now) }
{
    let mut words = Vec::new(alloc);
    for header in headers {
        words.push(&header.word)?;
    }
    Ok(words)
}

pub(crate) fn action_words<'a>(
    alloc: Global,
    actions: &'a [RawAction],
) -> Result<Vec<&'a Word>, AllocError>
    ensures { IfOk result (λ words. pointed words.items ≡ spec.action_words actions.now) }
{
    let mut words = Vec::new(alloc);
    for action in actions {
        words.push(&action.word)?;
    }
    Ok(words)
}

/// The words of items of `:types`, without `object` under `object`.
pub(crate) fn kept_words<'a>(alloc: Global, items: &'a [Typed]) -> Result<Vec<&'a Word>, AllocError>
    ensures { IfOk result (λ words. pointed words.items ≡ spec.item_words (kept_types items.now)) }
{
    let mut words = Vec::new(alloc);
    for item in items {
        add_if_kept(&mut words, item)?;
    }
    Ok(words)
}

fn add_if_kept<'a>(words: &mut Vec<&'a Word>, item: &'a Typed) -> Result<(), AllocError>
    ensures { OnOk result
        (pointed words.new.items
        ≡ pointed words.old.items ++ spec.item_words (kept_types (item.now ∷ []))) }
{
    if says_nothing(item) {
        return Ok(());
    }
    words.push(&item.word)?;
    Ok(())
}

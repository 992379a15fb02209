ghost use Rattle.std.specs.Prelude.{◌≡◌, ◌≤◌, ◌++◌, length, take, IfOk, OnOk};
ghost use Rattle.mf_model.specs.Resolution.{typed_names};
ghost use Rattle.mf_types.specs.Gives.{Gives, made};
ghost use Rattle.mf_types.specs.Tables.{declared_of};
ghost use Rattle.mf_types.specs.Tasks.{AreFew};
ghost use Rattle.mf_types.specs.Typing as spec;

use super::declarations::narrow_all;
use super::narrow_rows::NarrowRows;
use crate::binders::Binders;
use crate::item_types::types_of_items;
use crate::refusal::Refusal;
use crate::tables::Tables;
use mf_model::{List, Typed, TypedList, Types};
use std::alloc::{AllocError, Global};

// The most variables in scope.
const MOST_VARIABLES: usize = 64;

/// Puts the variables of a list inside those in scope: at most 64 in all.
#[tactic(auto, unfolding(crate::specs::Typing::inside))]
pub(crate) fn enter(alloc: Global, binders: &mut Binders, items: &[Typed]) -> Result<(), Refusal>
    requires { length binders.old ≤ 64 }
    ensures names { Gives (made (λ done. binders.new) result) (spec.inside binders.old items.now) }
    ensures room { OnOk result (length binders.new ≤ 64) }
    ensures outer { OnOk result (take (length binders.old) binders.new ≡ binders.old) }
{
    if items.len() > MOST_VARIABLES - binders.len() {
        return Err(Refusal::Refused);
    }
    Ok(add_names(alloc, binders, items)?)
}

/// Puts the names of items inside those in scope.
fn add_names(alloc: Global, binders: &mut Binders, items: &[Typed]) -> Result<(), AllocError>
    ensures { OnOk result (binders.new ≡ binders.old ++ typed_names items.now) }
{
    for item in items {
        binders.push(alloc, item.word.text.as_slice())?;
    }
    Ok(())
}

/// The declared types of each item.
#[tactic(auto, using(crate::proofs::Narrow::narrow_items))]
pub(crate) fn types(
    alloc: Global,
    tables: &Tables,
    items: &TypedList,
) -> Result<List<Types>, AllocError>
    requires few { AreFew (declared_of tables.now) }
    ensures { IfOk result (λ types. types ≡ spec.types_in (declared_of tables.now) items.now) }
{
    let rows = types_of_items(alloc, &tables.types, None, items)?;
    let mut narrow_rows = NarrowRows::new(alloc)?;
    narrow_all(alloc, &mut narrow_rows, rows.as_slice())
}

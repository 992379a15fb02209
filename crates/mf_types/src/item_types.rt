ghost use Rattle.std.specs.Prelude.{◌≡◌, ◌-◌, [], map, IfOk, IfSome, slice_index_or};
ghost use Rattle.mf_model.specs.TypedLists.{IsAlike};
ghost use Rattle.mf_types.specs.Names as spec;

use crate::ancestry::Ancestry;
use crate::type_row::TypeRow;
use mf_model::{List, TypedList, Word};
use mf_names::Names;
use std::alloc::{AllocError, Global};

/// The numbers of the declared types of each item, where the items of a group share one list. It
/// has a guide where the ancestors of types are known.
#[tactic(auto, using(crate::proofs::GroupTypes::row_more, crate::proofs::GroupTypes::shared_row))]
pub(crate) fn types_of_items(
    alloc: Global,
    types: &Names,
    ancestry: Option<&Ancestry>,
    items: &TypedList,
) -> Result<List<TypeRow>, AllocError>
    ensures { IfOk result (λ rows. rows ≡ map (spec.item_types types.now) items.now) }
{
    let mut rows = List::new(alloc);
    for (n, item) in items.as_slice().iter().enumerate() {
        let row = match row_before(items, rows.as_slice(), n) {
            Some(row) => row.share()?,
            None => TypeRow::new(ancestry, types_of(alloc, types, item.types.as_slice())?)?,
        };
        rows.push(row)?;
    }
    Ok(rows)
}

/// The types of the item before, where it stands in the same group.
fn row_before<'r>(items: &TypedList, rows: &'r [TypeRow], at: usize) -> Option<&'r TypeRow>
    ensures { IfSome result
        (λ row. IsAlike items.now at × (row.now ≡ slice_index_or rows.now (at - 1) [])) }
{
    if !items.shares_types(at) {
        return None;
    }
    rows.get(at - 1)
}

/// The numbers of the types that are written, of those that are declared; type 0 where none is
/// written.
fn types_of(alloc: Global, types: &Names, words: &[Word]) -> Result<List<usize>, AllocError>
    ensures { IfOk result (λ numbers. numbers ≡ spec.types_of types.now words.now) }
{
    if words.is_empty() {
        return List::from_slice(alloc, &[0]);
    }
    numbers_of(alloc, types, words)
}

fn numbers_of(alloc: Global, types: &Names, words: &[Word]) -> Result<List<usize>, AllocError>
    ensures { IfOk result (λ numbers. numbers ≡ spec.numbers_of types.now words.now) }
{
    let mut out = List::new(alloc);
    for word in words {
        if let Some(number) = types.find(word.text.as_slice()) {
            out.push(number)?;
        }
    }
    Ok(out)
}

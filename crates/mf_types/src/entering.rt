ghost use Rattle.std.specs.Prelude.{◌≡◌, [], ◌∷◌, ◌++◌, map, not, IfOk, OnOk};
ghost use Rattle.mf_types.specs.Names as spec;
ghost use Rattle.mf_types.specs.Tables.{entered};

use crate::ancestry::Ancestry;
use crate::item_types::types_of_items;
use crate::type_row::TypeRow;
use mf_model::{Header, List, Text, Typed, TypedList};
use mf_names::Names;
use std::alloc::{AllocError, Global};

/// Enters a name behind the others unless it stands there, and says whether it is new.
#[tactic(auto, using(crate::proofs::Found::found))]
pub(crate) fn enter(alloc: Global, names: &mut Names, name: &Text) -> Result<bool, AllocError>
    ensures new { IfOk result (λ is_new. is_new ≡ not (spec.is_member names.old name.now)) }
    ensures names { OnOk result (names.new ≡ entered names.old (name.now ∷ [])) }
{
    if names.find(name.as_slice()).is_some() {
        return Ok(false);
    }
    names.add(alloc, name)?;
    Ok(true)
}

/// Enters the names of items that are new, with their types.
pub(crate) fn add_items(
    alloc: Global,
    types: &Names,
    ancestry: &Ancestry,
    names: &mut Names,
    out: &mut List<TypeRow>,
    items: &TypedList,
) -> Result<(), AllocError>
    ensures names { OnOk result (names.new ≡ entered names.old (map spec.item_text items.now)) }
    ensures types { OnOk result
        (out.new ≡ out.old ++ map (spec.item_types types.now)
        (spec.firsts spec.item_text names.old items.now)) }
{
    let rows = types_of_items(alloc, types, Some(ancestry), items)?;
    for (n, item) in items.as_slice().iter().enumerate() {
        add_item(alloc, names, out, item, &rows.as_slice()[n])?;
    }
    Ok(())
}

/// Enters the name of an item with these types, if it is new.
pub(crate) fn add_item(
    alloc: Global,
    names: &mut Names,
    out: &mut List<TypeRow>,
    item: &Typed,
    types: &TypeRow,
) -> Result<(), AllocError>
    ensures names { OnOk result (names.new ≡ entered names.old (item.now.word.text ∷ [])) }
    ensures types { OnOk result
        (out.new ≡ out.old ++ map (λ one. types.now)
        (spec.firsts spec.item_text names.old (item.now ∷ []))) }
{
    if enter(alloc, names, &item.word.text)? {
        out.push(types.share()?)?;
    }
    Ok(())
}

/// Enters the names of predicates or functions that are new, with the types of their parameters.
pub(crate) fn add_headers(
    alloc: Global,
    types: &Names,
    ancestry: &Ancestry,
    names: &mut Names,
    out: &mut List<List<TypeRow>>,
    headers: &[Header],
) -> Result<(), AllocError>
    ensures names { OnOk result (names.new ≡ entered names.old (map spec.header_text headers.now)) }
    ensures types { OnOk result
        (out.new ≡ out.old ++ map (spec.header_types types.now)
        (spec.firsts spec.header_text names.old headers.now)) }
{
    for header in headers {
        add_header(alloc, types, ancestry, names, out, header)?;
    }
    Ok(())
}

fn add_header(
    alloc: Global,
    types: &Names,
    ancestry: &Ancestry,
    names: &mut Names,
    out: &mut List<List<TypeRow>>,
    header: &Header,
) -> Result<(), AllocError>
    ensures names { OnOk result (names.new ≡ entered names.old (header.now.word.text ∷ [])) }
    ensures types { OnOk result
        (out.new ≡ out.old ++ map (spec.header_types types.now)
        (spec.firsts spec.header_text names.old (header.now ∷ []))) }
{
    if enter(alloc, names, &header.word.text)? {
        out.push(types_of_items(alloc, types, Some(ancestry), &header.parameters)?)?;
    }
    Ok(())
}

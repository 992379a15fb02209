ghost use Rattle.std.specs.Prelude.{◌≡◌, All, IfOk};
ghost use Rattle.mf_types.specs.Tasks as spec;

use super::narrow_rows::NarrowRows;
use crate::type_row::TypeRow;
use mf_model::{List, Object, Symbol, Text, TypeName, Types};
use mf_names::Names;
use std::alloc::{AllocError, Global};

/// The types of each parameter in 16 bits.
pub(crate) fn narrow_all(
    alloc: Global,
    rows: &mut NarrowRows,
    lists: &[TypeRow],
) -> Result<List<Types>, AllocError>
    requires { All spec.IsNarrow lists.now }
    ensures { IfOk result (λ types. types ≡ lists.now) }
{
    let mut out = List::new(alloc);
    for row in lists {
        out.push(rows.narrow(alloc, row.numbers())?)?;
    }
    Ok(out)
}

/// The types with their parents.
pub(crate) fn type_names(
    alloc: Global,
    names: &Names,
    parents: &[usize],
) -> Result<List<TypeName>, AllocError>
    requires { spec.IsNarrow parents.now }
    ensures { IfOk result (λ types. types ≡ spec.paired spec.type_named names.now parents.now) }
{
    let mut out = List::new(alloc);
    for (n, parent) in parents.iter().enumerate() {
        let Some(name) = names.get(n) else {
            return Ok(out);
        };
        out.push(TypeName {
            name: Text::from_slice(alloc, name)?,
            parent: *parent as u16,
        })?;
    }
    Ok(out)
}

/// The objects with their declared types.
pub(crate) fn objects(
    alloc: Global,
    names: &Names,
    types: &[TypeRow],
) -> Result<List<Object>, AllocError>
    requires { All spec.IsNarrow types.now }
    ensures { IfOk result (λ objects. objects ≡ spec.paired spec.object_named names.now types.now) }
{
    let mut out = List::new(alloc);
    let mut rows = NarrowRows::new(alloc)?;
    for (n, row) in types.iter().enumerate() {
        let Some(name) = names.get(n) else {
            return Ok(out);
        };
        out.push(Object {
            name: Text::from_slice(alloc, name)?,
            types: rows.narrow(alloc, row.numbers())?,
        })?;
    }
    Ok(out)
}

/// The predicates, or the functions, with the types of their parameters.
pub(crate) fn symbols(
    alloc: Global,
    names: &Names,
    types: &[List<TypeRow>],
) -> Result<List<Symbol>, AllocError>
    requires { All (All spec.IsNarrow) types.now }
    ensures { IfOk result (λ symbols. symbols ≡ spec.paired spec.symbol_named names.now types.now) }
{
    let mut out = List::new(alloc);
    let mut rows = NarrowRows::new(alloc)?;
    for (n, lists) in types.iter().enumerate() {
        let Some(name) = names.get(n) else {
            return Ok(out);
        };
        out.push(Symbol {
            name: Text::from_slice(alloc, name)?,
            parameters: narrow_all(alloc, &mut rows, lists.as_slice())?,
        })?;
    }
    Ok(out)
}

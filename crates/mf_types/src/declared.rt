ghost use Rattle.std.specs.Prelude.{◌≡◌, [], ◌++◌, map, IfOk};
ghost use Rattle.mf_types.specs.Names as spec;
ghost use Rattle.mf_types.specs.Tables.{declared_of};

use crate::ancestry::Ancestry;
use crate::changed::changed;
use crate::entering::{add_headers, add_items};
use crate::tables::Tables;
use crate::type_row::TypeRow;
use crate::type_table::type_table;
use mf_model::{Domain, Header, List, Problem, TypedList};
use mf_names::Names;
use std::alloc::{AllocError, Global};

impl Tables {
    pub(crate) fn new(
        alloc: Global,
        domain: &Domain,
        problem: &Problem,
    ) -> Result<Tables, AllocError>
        ensures { IfOk result (λ tables. declared_of tables ≡ spec.declared_by domain.now problem.now) }
    {
        let types = type_table(alloc, &domain.types)?;
        let objects = object_table(
            alloc,
            &types.names,
            &types.parents,
            &domain.constants,
            &problem.objects,
        )?;
        let predicates = symbol_table(
            alloc,
            &types.names,
            &types.parents,
            domain.predicates.as_slice(),
        )?;
        let functions = symbol_table(
            alloc,
            &types.names,
            &types.parents,
            domain.functions.as_slice(),
        )?;
        let changed = changed(alloc, domain.actions.as_slice())?;
        Ok(Tables {
            types: types.names,
            parents: types.parents,
            objects: objects.names,
            object_types: objects.types,
            no_types: TypeRow::new(None, List::new(alloc))?,
            predicates: predicates.names,
            predicate_types: predicates.types,
            functions: functions.names,
            function_types: functions.types,
            changed,
        })
    }
}

/// Objects in the order of their numbers, each with its types.
#[derive(Debug, Drop)]
pub(crate) struct ObjectTable {
    pub(crate) names: Names,
    pub(crate) types: List<TypeRow>,
}

/// Predicates or functions in the order of their numbers, each with the types of its parameters.
#[derive(Debug, Drop)]
pub(crate) struct SymbolTable {
    pub(crate) names: Names,
    pub(crate) types: List<List<TypeRow>>,
}

/// The constants, and then the objects of the problem.
pub(crate) fn object_table(
    alloc: Global,
    types: &Names,
    ancestry: &Ancestry,
    constants: &TypedList,
    objects: &TypedList,
) -> Result<ObjectTable, AllocError>
    ensures names { IfOk result
        (λ table. table.names
        ≡ map spec.item_text (spec.firsts spec.item_text [] (constants.now ++ objects.now))) }
    ensures types { IfOk result
        (λ table. table.types
        ≡ map (spec.item_types types.now)
        (spec.firsts spec.item_text [] (constants.now ++ objects.now))) }
{
    let mut table = ObjectTable {
        names: Names::new(alloc),
        types: List::new(alloc),
    };
    add_items(
        alloc,
        types,
        ancestry,
        &mut table.names,
        &mut table.types,
        constants,
    )?;
    add_items(
        alloc,
        types,
        ancestry,
        &mut table.names,
        &mut table.types,
        objects,
    )?;
    Ok(table)
}

pub(crate) fn symbol_table(
    alloc: Global,
    types: &Names,
    ancestry: &Ancestry,
    headers: &[Header],
) -> Result<SymbolTable, AllocError>
    ensures names { IfOk result
        (λ table. table.names
        ≡ map spec.header_text (spec.firsts spec.header_text [] headers.now)) }
    ensures types { IfOk result
        (λ table. table.types
        ≡ map (spec.header_types types.now) (spec.firsts spec.header_text [] headers.now)) }
{
    let mut table = SymbolTable {
        names: Names::new(alloc),
        types: List::new(alloc),
    };
    add_headers(
        alloc,
        types,
        ancestry,
        &mut table.names,
        &mut table.types,
        headers,
    )?;
    Ok(table)
}

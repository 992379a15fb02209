ghost use Rattle.std.specs.Prelude.{◌≡◌, [], ◌∷◌, ◌++◌, drop, length, take, OnOk, OnErr};
ghost use Rattle.std.specs.Option.{option_copied};
ghost use Rattle.mf_types.specs.Arguments.{types_at};
ghost use Rattle.mf_types.specs.Hiding.{types_else};
ghost use Rattle.mf_types.specs.Scopes as spec;

use crate::binders::Binders;
use crate::item_types::types_of_items;
use crate::tables::Tables;
use crate::type_row::TypeRow;
use mf_model::TypedList;
use std::alloc::{AllocError, Global};
use std::marker::Model;

/// The variables in scope, each with its declared types, the outermost first.
#[derive(Drop)]
pub(crate) struct Scope {
    binders: Binders,
    types: Vec<TypeRow>,
}

impl Model for Scope {
    ghost use Rattle.std.specs.Prelude.{◌≡◌, List, length};
    ghost use Rattle.mf_types.specs.Scopes.{Variable, variable};
    ghost use Rattle.mf_types.specs.Tasks.{paired};

    ghost Value = { List Variable };

    ghost view = { λ scope. paired variable scope.binders scope.types.items };

    ghost invariant = { λ scope. length scope.types.items ≡ length scope.binders };
}

impl Scope {
    pub(crate) fn new(alloc: Global) -> Scope
        ensures { result ≡ [] }
    {
        Scope {
            binders: Binders::new(alloc),
            types: Vec::new(alloc),
        }
    }

    /// How many variables are in scope.
    pub(crate) fn len(&self) -> usize
        ensures { result ≡ length self.now }
    {
        self.binders.len()
    }

    /// The types of the innermost variable of a name.
    pub(crate) fn types_of(&self, name: &[u8]) -> Option<&TypeRow>
        ensures { option_copied result ≡ types_at (spec.find_in self.now name.now) }
    {
        match self.binders.find(name) {
            Some(place) => Some(&self.types[place]),
            None => None,
        }
    }

    /// Puts a variable inside the others.
    fn push(&mut self, alloc: Global, name: &[u8], types: TypeRow) -> Result<(), AllocError>
        ensures ok { OnOk result (self.new ≡ self.old ++ spec.variable name.now types ∷ []) }
        ensures err { OnErr result (self.new ≡ self.old) }
    {
        self.types.reserve(1)?;
        self.binders.push(alloc, name)?;
        self.types.push_reserved(types);
        Ok(())
    }

    // The types of the innermost variable of a name, of those from a place on.
    fn types_from(&self, first: usize, name: &[u8]) -> Option<&TypeRow>
        ensures { option_copied result ≡ types_at (spec.find_in (drop first self.now) name.now) }
    {
        let place = self.binders.find(name)?;
        if place < first {
            return None;
        }
        Some(&self.types[place])
    }

    // Puts a variable of a list inside the others, where the list begins at a place. Of two
    // variables of one name in a list the first is meant, so that both share its types.
    fn push_of_list(
        &mut self,
        alloc: Global,
        first: usize,
        name: &[u8],
        own: &TypeRow,
    ) -> Result<(), AllocError>
        ensures { OnOk result (self.new ≡ self.old ++ spec.variable name.now
            (types_else (types_at (spec.find_in (drop first self.old) name.now)) own.now) ∷ []) }
    {
        let types = match self.types_from(first, name) {
            Some(types) => types.share()?,
            None => own.share()?,
        };
        self.push(alloc, name, types)
    }

    /// Leaves so many of the outermost variables in scope.
    pub(crate) fn truncate(&mut self, len: usize)
        ensures { self.new ≡ take len self.old }
    {
        self.binders.truncate(len);
        self.types.truncate(len);
    }
}

/// Puts the variables of a list inside those in scope.
pub(crate) fn enter(
    alloc: Global,
    tables: &Tables,
    scope: &mut Scope,
    items: &TypedList,
) -> Result<(), AllocError>
    ensures { OnOk result (scope.new ≡
        scope.old ++ spec.variables_of tables.now.types items.now) }
{
    let rows = types_of_items(alloc, &tables.types, Some(&tables.parents), items)?;
    let first = scope.len();
    for (n, item) in items.as_slice().iter().enumerate() {
        let name = item.word.text.as_slice();
        scope.push_of_list(alloc, first, name, &rows.as_slice()[n])?;
    }
    Ok(())
}

ghost use Rattle.std.specs.Prelude.{◌≡◌, ◌<◌, [], length, IfSome, slice_index_or};
ghost use Rattle.mf_model.specs.Resolution.{number_of};
ghost use Rattle.mf_types.specs.Names.{is_member};
ghost use Rattle.mf_types.specs.Related as related;

use crate::ancestry::Ancestry;
use crate::related_rows::are_related;
use crate::type_row::TypeRow;
use mf_model::List;
use mf_names::Names;

/// What a domain and a problem declare: names in the order of their numbers, and for each what
/// its first declaration says. Type 0 is `object`.
#[derive(Debug, Drop)]
pub(crate) struct Tables {
    pub(crate) types: Names,
    pub(crate) parents: Ancestry,
    pub(crate) objects: Names,
    pub(crate) object_types: List<TypeRow>,
    /// The types of an object that isn't there.
    pub(crate) no_types: TypeRow,
    pub(crate) predicates: Names,
    pub(crate) predicate_types: List<List<TypeRow>>,
    pub(crate) functions: Names,
    pub(crate) function_types: List<List<TypeRow>>,
    pub(crate) changed: Names,
    ghost none: { no_types ≡ [] },
}

impl Tables {
    /// The number of a type.
    pub(crate) fn find_type(&self, name: &[u8]) -> Option<usize>
        ensures value { result ≡ number_of self.now.types name.now }
        ensures within { IfSome result (λ n. n < length self.now.types) }
    {
        self.types.find(name)
    }

    /// The number of a constant or an object.
    pub(crate) fn find_object(&self, name: &[u8]) -> Option<usize>
        ensures value { result ≡ number_of self.now.objects name.now }
        ensures within { IfSome result (λ n. n < length self.now.objects) }
    {
        self.objects.find(name)
    }

    /// The number of a predicate.
    pub(crate) fn find_predicate(&self, name: &[u8]) -> Option<usize>
        ensures value { result ≡ number_of self.now.predicates name.now }
        ensures within { IfSome result (λ n. n < length self.now.predicates) }
    {
        self.predicates.find(name)
    }

    /// The number of a function.
    pub(crate) fn find_function(&self, name: &[u8]) -> Option<usize>
        ensures value { result ≡ number_of self.now.functions name.now }
        ensures within { IfSome result (λ n. n < length self.now.functions) }
    {
        self.functions.find(name)
    }

    /// The declared types of an object.
    pub(crate) fn types_of_object(&self, number: usize) -> &TypeRow
        ensures { result.now ≡ slice_index_or self.now.object_types number [] }
    {
        match self.object_types.get(number) {
            Some(types) => types,
            None => &self.no_types,
        }
    }

    /// The declared types of each parameter of a predicate.
    pub(crate) fn types_of_predicate(&self, number: usize) -> &[TypeRow]
        ensures { result.now ≡ slice_index_or self.now.predicate_types number [] }
    {
        match self.predicate_types.get(number) {
            Some(types) => types.as_slice(),
            None => &[],
        }
    }

    /// The declared types of each parameter of a function.
    pub(crate) fn types_of_function(&self, number: usize) -> &[TypeRow]
        ensures { result.now ≡ slice_index_or self.now.function_types number [] }
    {
        match self.function_types.get(number) {
            Some(types) => types.as_slice(),
            None => &[],
        }
    }

    /// Whether an effect of some action changes the function of this name, declared or not.
    pub(crate) fn is_changed(&self, name: &[u8]) -> bool
        ensures { result ≡ is_member self.now.changed name.now }
    {
        self.changed.find(name).is_some()
    }

    /// Whether some type of the one list is equal to, above or below some type of the other.
    pub(crate) fn are_related(&self, types: &TypeRow, others: &TypeRow) -> bool
        ensures { result ≡ related.are_related self.now.parents types.now others.now }
    {
        let alloc = self.parents.allocator();
        are_related(alloc, &self.parents, types, others)
    }
}

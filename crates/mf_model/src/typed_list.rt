ghost use Rattle.std.specs.Prelude.{◌≡◌, true, [], ◌∷◌, ◌++◌, ◌↔◌, IsTrue, IfOk, length};
ghost use Rattle.std.specs.Bool.{OnTrue};
ghost use Rattle.mf_model.specs.TypedLists as spec;

use crate::{List, SharedList, Typed, Word};
use std::alloc::{AllocError, Global};
use std::marker::Model;

/// The items of a typed list, group by group. Contracts see them as a list of items.
///
/// The items of a group share one list of types, and all but its first are marked, so that no types
/// are compared to know them as the same.
#[derive(Debug, Drop)]
pub struct TypedList {
    items: List<Typed>,
    marks: List<bool>,
}

impl Model for TypedList {
    ghost use Rattle.std.specs.Prelude.{List};
    ghost use Rattle.mf_model.specs.TypedLists.{AreMarked};
    ghost use Rattle.mf_model.specs.declared.form.Typed.{Typed};

    ghost Value = { List Typed };

    ghost view = { λ it. it.items };

    ghost invariant = { λ it. AreMarked it.marks it.items };
}

impl TypedList {
    pub fn new(alloc: Global) -> TypedList
        ensures { result ≡ [] }
    {
        TypedList {
            items: List::new(alloc),
            marks: List::new(alloc),
        }
    }

    pub fn as_slice(&self) -> &[Typed]
        ensures { result.now ≡ self.now }
    {
        self.items.as_slice()
    }

    pub fn len(&self) -> usize
        ensures { result ≡ length self.now }
    {
        self.items.len()
    }

    pub fn is_empty(&self) -> bool
        ensures { IsTrue result ↔ (self.now ≡ []) }
    {
        self.items.is_empty()
    }

    /// Whether the item at a place stands in a group with the one before it, and so has the same
    /// types.
    pub fn shares_types(&self, at: usize) -> bool
        ensures { OnTrue result (spec.IsAlike self.now at) }
    {
        match self.marks.get(at) {
            Some(mark) => *mark,
            None => false,
        }
    }

    /// Words as a group with these types behind the items.
    #[tactic(auto, using(crate::proofs::TypedItems::pushed_alike, crate::proofs::TypedItems::pushed_ends))]
    pub fn with_group(
        self,
        types: &SharedList<Word>,
        words: List<Word>,
    ) -> Result<TypedList, AllocError>
        ensures { IfOk result (λ it. it ≡ self ++ spec.typed_as types.now words) }
    {
        let mut list = self;
        let mut is_first = true;
        for word in words.into_vec() {
            let types = types.share()?;
            list = list.with_item(Typed { word, types }, !is_first)?;
            is_first = false;
        }
        Ok(list)
    }

    fn with_item(self, item: Typed, mark: bool) -> Result<TypedList, AllocError>
        requires { mark ≡ true → spec.IsAlike (self ++ item ∷ []) (length self) }
        ensures { IfOk result (λ it. it ≡ self ++ item ∷ []) }
    {
        let TypedList {
            mut items,
            mut marks,
        } = self;
        items.push(item)?;
        marks.push(mark)?;
        Ok(TypedList { items, marks })
    }
}

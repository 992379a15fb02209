ghost use Rattle.std.specs.Prelude.{◌≡◌, IfOk};

use crate::ancestry::Ancestry;
use crate::guide::Guide;
use mf_model::{List, SharedList};
use std::alloc::{AllocError, Global};
use std::marker::Model;
use std::rc::Rc;

// So many types are worth a guide.
const MANY_TYPES: usize = 8;

/// The declared types of an item, which contracts see as the list of their numbers. The items of
/// a group share one.
#[derive(Debug, Drop)]
pub(crate) struct TypeRow {
    numbers: SharedList<usize>,
    guide: Option<Rc<Guide>>,
}

impl Model for TypeRow {
    ghost use Rattle.std.specs.Prelude.{List, ℕ};

    ghost Value = { List ℕ };

    ghost view = { λ row. row.numbers };
}

impl TypeRow {
    /// The row has a guide where there are many types, and their ancestors are known.
    pub(crate) fn new(
        ancestry: Option<&Ancestry>,
        types: List<usize>,
    ) -> Result<TypeRow, AllocError>
        ensures { IfOk result (λ row. row ≡ types) }
    {
        let guide = match ancestry {
            Some(ancestry) => guide_to(types.allocator(), ancestry, types.as_slice())?,
            None => None,
        };
        let numbers = SharedList::from_list(types)?;
        Ok(TypeRow { numbers, guide })
    }

    /// One more owner of the same row, which takes no memory. It fails only where the owners
    /// can't be counted.
    pub(crate) fn share(&self) -> Result<TypeRow, AllocError>
        ensures { IfOk result (λ row. row ≡ self.now) }
    {
        let numbers = self.numbers.share()?;
        let guide = match &self.guide {
            Some(guide) => Some(guide.clone()?),
            None => None,
        };
        Ok(TypeRow { numbers, guide })
    }

    pub(crate) fn as_slice(&self) -> &[usize]
        ensures { result.now ≡ self.now }
    {
        self.numbers.as_slice()
    }

    pub(crate) fn numbers(&self) -> &SharedList<usize>
        ensures { result.now ≡ self.now }
    {
        &self.numbers
    }

    pub(crate) fn guide(&self) -> Option<&Guide> {
        match &self.guide {
            Some(guide) => Some(guide.as_ref()),
            None => None,
        }
    }
}

fn guide_to(
    alloc: Global,
    ancestry: &Ancestry,
    types: &[usize],
) -> Result<Option<Rc<Guide>>, AllocError> {
    if types.len() < MANY_TYPES {
        return Ok(None);
    }
    Ok(Some(Rc::new(alloc, Guide::new(alloc, ancestry, types)?)?))
}

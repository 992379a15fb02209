ghost use Rattle.std.specs.Prelude.{◌≡◌, [], ◌↔◌, IsTrue, length, IfOk};

use crate::List;
use std::alloc::AllocError;
use std::marker::Model;
use std::rc::Rc;

/// A list with several owners that is never changed, which contracts see as the list of its
/// elements.
#[derive(Debug, Drop)]
pub struct SharedList<T> {
    items: Rc<List<T>>,
}

impl<T> Model for SharedList<T> {
    ghost use Rattle.std.specs.Prelude.{List};
    ghost use Rattle.std.specs.Coded.{coded_list};

    ghost Value = { List T };

    ghost coded = { coded_list T.code };

    ghost view = { λ it. it.items.value };
}

impl<T> SharedList<T> {
    pub fn as_slice(&self) -> &[T]
        ensures { result.now ≡ self.now }
    {
        self.items.as_ref().as_slice()
    }

    pub fn len(&self) -> usize
        ensures { result ≡ length self.now }
    {
        self.items.as_ref().len()
    }

    pub fn is_empty(&self) -> bool
        ensures { IsTrue result ↔ (self.now ≡ []) }
    {
        self.items.as_ref().is_empty()
    }
}

impl<T: Drop> SharedList<T> {
    /// The list with one owner so far.
    pub fn from_list(items: List<T>) -> Result<SharedList<T>, AllocError>
        ensures { IfOk result (λ it. it ≡ items) }
    {
        let items = Rc::new(items.allocator(), items)?;
        Ok(SharedList { items })
    }

    /// One more owner of the same list, which takes no memory. It fails only where the owners
    /// can't be counted.
    pub fn share(&self) -> Result<SharedList<T>, AllocError>
        ensures { IfOk result (λ it. it ≡ self.now) }
    {
        let items = self.items.clone()?;
        Ok(SharedList { items })
    }
}

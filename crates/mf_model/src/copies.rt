//! Copies of ground atoms, function terms, values and instances.
ghost use Rattle.std.specs.Prelude.{◌≡◌, IfOk};

use crate::{Atom, Cell, Instance, Valued};
use std::alloc::{AllocError, Global};

impl Atom {
    /// An atom of its own with the same predicate and objects.
    pub fn copy(&self, alloc: Global) -> Result<Atom, AllocError>
        ensures { IfOk result (λ atom. atom ≡ self.now) }
    {
        Ok(Atom {
            predicate: self.predicate,
            objects: self.objects.copy(alloc)?,
        })
    }
}

impl Cell {
    /// A term of its own with the same function and objects.
    pub fn copy(&self, alloc: Global) -> Result<Cell, AllocError>
        ensures { IfOk result (λ cell. cell ≡ self.now) }
    {
        Ok(Cell {
            function: self.function,
            objects: self.objects.copy(alloc)?,
        })
    }
}

impl Valued {
    /// A term of its own with the same value.
    pub fn copy(&self, alloc: Global) -> Result<Valued, AllocError>
        ensures { IfOk result (λ valued. valued ≡ self.now) }
    {
        Ok(Valued {
            cell: self.cell.copy(alloc)?,
            value: self.value,
        })
    }
}

impl Instance {
    /// An instance of its own with the same action and objects.
    pub fn copy(&self, alloc: Global) -> Result<Instance, AllocError>
        ensures { IfOk result (λ instance. instance ≡ self.now) }
    {
        Ok(Instance {
            action: self.action,
            objects: self.objects.copy(alloc)?,
        })
    }
}

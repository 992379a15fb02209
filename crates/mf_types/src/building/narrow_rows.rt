ghost use Rattle.std.specs.Prelude.{◌≡◌, IfOk};
ghost use Rattle.mf_types.specs.Tasks as spec;

use mf_model::{List, SharedList, Types};
use std::alloc::{AllocError, Global};
use std::marker::Model;

/// Puts one list of type numbers after another into 16 bits. Equal neighbours share one list.
#[derive(Drop)]
pub(crate) struct NarrowRows {
    numbers: SharedList<usize>,
    types: Types,
}

impl Model for NarrowRows {
    ghost use Rattle.std.specs.Prelude.{◌≡◌};

    ghost Value = { Unit {0} };

    ghost view = { λ rows. tt };

    ghost invariant = { λ rows. rows.types ≡ rows.numbers };
}

impl NarrowRows {
    pub(crate) fn new(alloc: Global) -> Result<NarrowRows, AllocError> {
        Ok(NarrowRows {
            numbers: SharedList::from_list(List::new(alloc))?,
            types: SharedList::from_list(List::new(alloc))?,
        })
    }

    pub(crate) fn narrow(
        &mut self,
        alloc: Global,
        numbers: &SharedList<usize>,
    ) -> Result<Types, AllocError>
        requires { spec.IsNarrow numbers.now }
        ensures { IfOk result (λ types. types ≡ numbers.now) }
    {
        if self.numbers.as_slice() != numbers.as_slice() {
            let types = SharedList::from_list(narrow(alloc, numbers.as_slice())?)?;
            let numbers = numbers.share()?;
            self.types = types;
            self.numbers = numbers;
        }
        self.types.share()
    }
}

fn narrow(alloc: Global, numbers: &[usize]) -> Result<List<u16>, AllocError>
    requires { spec.IsNarrow numbers.now }
    ensures { IfOk result (λ types. types ≡ numbers.now) }
{
    let mut out = List::new(alloc);
    for number in numbers {
        out.push(*number as u16)?;
    }
    Ok(out)
}

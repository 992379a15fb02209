ghost use Rattle.mf_task.specs.CaseRows.{IsRoot};
ghost use Rattle.std.specs.Prelude.{◌≡◌};

use crate::{Naming, Value};
use mf_store::Row;
use std::marker::{Model, PhantomData};

/// The start of the case: its row and its value. The start is narrow.
#[derive(Drop)]
pub struct Root<N: Naming> {
    pub row: Row,
    pub value: Value,
    of: PhantomData<N>,
}

impl<N: Naming> Model for Root<N> {
    ghost use Rattle.mf_task.specs.CaseRows.{IsRoot, RootParts};

    ghost Value = { RootParts };

    ghost view = { λ root. record { row = root.row; value = root.value } };

    ghost invariant = { λ root. IsRoot N.case (record { row = root.row; value = root.value }) };
}

impl<N: Naming> Root<N> {
    /// The root with this row and this value.
    pub fn new(row: Row, value: Value) -> Root<N>
        requires { IsRoot N.case (record { row = row; value = value }) }
        ensures { result ≡ record { row = row; value = value } }
    {
        Root {
            row,
            value,
            of: PhantomData,
        }
    }
}

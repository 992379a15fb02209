ghost use Rattle.mf_task.specs.CaseRows.{IsGrownOf};
ghost use Rattle.std.specs.Prelude.{◌≡◌};

use crate::{Grown, Naming};
use mf_store::Row;
use std::marker::{Model, PhantomData};
use std::snapshot::Snapshot;

/// What expanding the state of this number gave. It was made from a row, which contracts alone see, and its content is
/// what the search rules give at that row.
#[derive(Drop)]
pub struct Expansion<N: Naming> {
    pub state: u64,
    pub grown: Grown,
    from: Snapshot<Row>,
    of: PhantomData<N>,
}

impl<N: Naming> Model for Expansion<N> {
    ghost use Rattle.mf_task.specs.CaseRows.{IsGrownOf, ExpansionParts};

    ghost Value = { ExpansionParts };

    ghost view = { λ made. record { state = made.state; from = made.from.value; grown = made.grown } };

    ghost invariant = { λ made. IsGrownOf N.case made.from.value made.grown };
}

impl<N: Naming> Expansion<N> {
    /// The expansion of the state of this number with this content, made from this row.
    pub fn new(state: u64, row: &Row, grown: Grown) -> Expansion<N>
        requires { IsGrownOf N.case row.now grown }
        ensures { result ≡ record { state = state; from = row.now; grown = grown } }
    {
        Expansion {
            state,
            grown,
            from: Snapshot::of(row),
            of: PhantomData,
        }
    }

    // The same, of a row that is remembered already.
    pub(crate) fn from_snapshot(state: u64, from: Snapshot<Row>, grown: Grown) -> Expansion<N>
        requires { IsGrownOf N.case from.value grown }
        ensures { result ≡ record { state = state; from = from.value; grown = grown } }
    {
        Expansion {
            state,
            grown,
            from,
            of: PhantomData,
        }
    }
}

ghost use Rattle.mf_task.specs.CaseRows.{IsNarrowRow, IsValueOf};
ghost use Rattle.std.specs.Prelude.{◌≡◌, IfOk};

use crate::{Expansion, Naming, Rows, Value};
use mf_fraction::Memory;
use mf_store::Row;
use std::alloc::Global;

/// What expands the states of a case. It is asked of rows of the task's shape that stand for narrow states.
pub trait Expander<N: Naming> {
    /// The successor list without values, made from this row, for the state of this number.
    fn rows(&self, alloc: Global, state: u64, row: &Row) -> Result<Rows<N>, Memory>
        requires { IsNarrowRow N.case row.now }
        ensures state { IfOk result (λ rows. rows.state ≡ state) }
        ensures from { IfOk result (λ rows. rows.from ≡ row.now) };

    /// The value of the state that the row stands for.
    fn value(&self, alloc: Global, row: &Row) -> Result<Value, Memory>
        requires { IsNarrowRow N.case row.now }
        ensures { IfOk result (λ value. IsValueOf N.case row.now value) };

    /// The successor list with values, made from this row, for the state of this number.
    fn expand(&self, alloc: Global, state: u64, row: &Row) -> Result<Expansion<N>, Memory>
        requires { IsNarrowRow N.case row.now }
        ensures state { IfOk result (λ made. made.state ≡ state) }
        ensures from { IfOk result (λ made. made.from ≡ row.now) };
}

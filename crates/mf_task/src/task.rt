ghost use Rattle.mf_task.specs.Rows.{IsRowOf, word_count};
ghost use Rattle.std.specs.Prelude.{◌≡◌, ◌<◌, ◌^◌, map, length, replicate, slice_get, IfOk, None, Some};

use crate::{Form, GroundAction, GroundCond};
use mf_fraction::Memory;
use mf_model::{Atom, Cell, Instance, List};
use mf_store::Row;
use std::alloc::Global;

const WORD: usize = 64;

/// A task in packed form. A row has a bit for each fluent atom and a value for each function term that changes and is
/// no cost, in their order. The goal is the list of its top-level conjuncts.
#[derive(Debug, Drop)]
pub struct Task {
    pub atoms: List<Atom>,
    pub terms: List<Cell>,
    pub forms: List<Form>,
    pub actions: List<GroundAction>,
    pub goal: List<GroundCond>,
    pub start: Row,
}

impl Task {
    /// How many live instances there are.
    pub fn instance_count(&self) -> u32
        requires { length self.now.actions < 2 ^ 32 }
        ensures { result ≡ length self.now.actions }
    {
        self.actions.len() as u32
    }

    /// The live instance of this number.
    pub fn instance(&self, number: u32) -> &Instance
        requires { number < length self.now.actions }
        ensures { slice_get (map (λ action. action.instance) self.now.actions) number ≡ Some result.now }
    {
        &self.actions.as_slice()[number as usize].instance
    }

    /// A row of the task's shape in which no atom is true and no term is defined.
    pub fn blank_row(&self, alloc: Global) -> Result<Row, Memory>
        ensures shape { IfOk result (λ row. IsRowOf self.now row) }
        ensures bits { IfOk result (λ row. row.bits ≡ replicate (word_count (length self.now.atoms)) 0) }
        ensures values { IfOk result (λ row. row.values ≡ replicate (length self.now.terms) None) }
    {
        Row::blank(alloc, self.atoms.len().div_ceil(WORD), self.terms.len())
    }
}

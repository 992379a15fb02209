ghost use Rattle.mf_permits.specs.Core.{FinishTells, HaltTells, IsLegal, IsMadeAt, IsRowAt, TakeTells, WritesRow, world_of};
ghost use Rattle.mf_task.specs.Histories.{IsHistoryOf};
ghost use Rattle.mf_permits.specs.Tables.{HasTaskShape};
ghost use Rattle.mf_search.specs.Answers.{IsStatus};
ghost use Rattle.std.specs.Prelude.{◌≡◌, ◌<◌, ◌≤◌, [], false, length, IfErr, IfOk, OnErr, OnOk};

use crate::beginning::{begin, row_of};
use crate::ending::{halt, status};
use crate::finishing::finish;
use crate::history::history_of;
use crate::ledger::Ledger;
use crate::reading::write_row;
use crate::taking::take_into;
use crate::{Finished, Taken, Unkept};
use mf_search::Status;
use mf_store::Row;
use mf_task::{Expansion, History, Memory, Naming, Root};
use std::alloc::Global;
use std::marker::{Model, PhantomData};

/// The core of a search: what its workers did, step by step, and who may take what next. Contracts see its entries, which
/// are a legal history, the number of workers, and whether it was halted.
#[derive(Drop)]
pub struct Core<N: Naming> {
    ledger: Ledger,
    // How many words of bits and how many values a row has.
    words: usize,
    values: usize,
    of: PhantomData<N>,
}

impl<N: Naming> Model for Core<N> {
    ghost use Rattle.mf_permits.specs.Core.{Seen};
    ghost use Rattle.mf_permits.specs.Ledger.{IsCore, seen_of};

    ghost Value = { Seen };

    ghost view = { λ core. seen_of core.ledger };

    ghost invariant = { λ core. IsCore N.case core.ledger core.words core.values };
}

impl<N: Naming> Core<N> {
    /// A core that has done nothing yet: the start is open, where its value is finite. `budget` is the budget of the case,
    /// and there are 1 to 64 workers.
    pub fn new(alloc: Global, root: Root<N>, budget: u64, workers: u16) -> Result<Core<N>, Memory>
        requires budget { budget ≡ N.case.budget }
        requires low { 1 ≤ workers }
        requires high { workers ≤ 64 }
        ensures { IfOk result (λ core. core ≡ record { entries = []; workers = workers; halted = false }) }
    {
        let ledger = begin::<N>(alloc, &root, budget, workers)?;
        let row = row_of(&root);
        Ok(Core {
            ledger,
            words: row.bits().len(),
            values: row.values().len(),
            of: PhantomData,
        })
    }

    /// The worker asks for a state, whose row is then written. Nothing else changes anything. It takes no memory.
    pub fn take(&mut self, worker: u16, into: &mut Row) -> Taken
        requires low { 1 ≤ worker }
        requires high { worker ≤ self.old.workers }
        requires shape { HasTaskShape N.case into.old }
        ensures tells { TakeTells N.case self.old self.new worker result }
        ensures row { WritesRow N.case (world_of N.case self.old) into.old into.new result }
        ensures legal { IsLegal N.case self.new }
    {
        take_into::<N>(&mut self.ledger, worker, into)
    }

    /// The worker hands in the expansion of its state. Out of memory gives it back, and nothing has changed.
    pub fn finish(&mut self, worker: u16, expansion: Expansion<N>) -> Result<Finished, Unkept<N>>
        requires low { 1 ≤ worker }
        requires high { worker ≤ self.old.workers }
        requires made { IsMadeAt N.case self.old worker expansion }
        ensures ok { IfOk result (λ finished. FinishTells N.case self.old self.new worker expansion finished) }
        ensures err { OnErr result (self.new ≡ self.old) }
        ensures given_back { IfErr result (λ unkept. unkept.expansion ≡ expansion) }
        ensures legal { IsLegal N.case self.new }
    {
        match finish::<N>(&mut self.ledger, worker, &expansion) {
            Ok(finished) => Ok(finished),
            Err(Memory) => Err(Unkept { expansion }),
        }
    }

    /// Halts the search: no state is taken any more. Where it has an answer already nothing changes.
    pub fn halt(&mut self)
        ensures tells { HaltTells N.case self.old self.new }
        ensures legal { IsLegal N.case self.new }
    {
        halt::<N>(&mut self.ledger);
    }

    /// The answer of the history, or else whether the search was halted or goes on.
    pub fn status(&self) -> Status
        ensures status { IsStatus N.case.budget (world_of N.case self.now) self.now.halted result }
        ensures legal { IsLegal N.case self.now }
    {
        status::<N>(&self.ledger)
    }

    /// The state that the worker has in expansion.
    pub fn kept(&self, worker: u16) -> Option<u64>
        requires low { 1 ≤ worker }
        requires high { worker ≤ self.now.workers }
        ensures kept { result ≡ (world_of N.case self.now).busy worker }
        ensures legal { IsLegal N.case self.now }
    {
        self.ledger.busy[worker as usize - 1]
    }

    /// Writes the row of an opened state.
    pub fn read(&self, state: u64, into: &mut Row)
        requires opened { state < length (world_of N.case self.now).opened }
        requires shape { HasTaskShape N.case into.old }
        ensures row { IsRowAt N.case (world_of N.case self.now) state into.new }
        ensures legal { IsLegal N.case self.now }
    {
        write_row::<N>(&self.ledger, state, into);
    }

    /// The history of the search.
    pub fn into_history(self, alloc: Global) -> Result<History, Memory>
        ensures history { IfOk result (λ history. IsHistoryOf N.case self.workers history) }
        ensures entries { IfOk result (λ history. history.entries ≡ self.entries) }
    {
        let Core {
            ledger,
            words,
            values,
            of: PhantomData,
        } = self;
        history_of::<N>(alloc, ledger, words, values)
    }
}

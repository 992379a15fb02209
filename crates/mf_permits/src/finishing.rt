ghost use Rattle.mf_permits.specs.Core.{FinishTells, IsMadeAt, MayCome, entry_of, with_entry, world_of};
ghost use Rattle.mf_permits.specs.Ledger.{Keeps, seen_of};
ghost use Rattle.mf_permits.specs.Tables.{HasRoom};
ghost use Rattle.mf_search.specs.declared.entry.Entry.TheVariants.{Done, Wide};
ghost use Rattle.mf_search.specs.Space.{Listed};
ghost use Rattle.mf_search.specs.World.{Going, at};
ghost use Rattle.mf_task.specs.CaseRows.{IsChildOf, IsGrownOf, child_of};
ghost use Rattle.mf_task.specs.Successors.{space_of};
ghost use Rattle.std.specs.Prelude.{◌≡◌, ◌+◌, ◌<◌, ◌≤◌, All, IfOk, OnErr, OnOk, Some, length, map, vec_capacity};

use crate::Finished;
use crate::ledger::{End, Ledger};
use crate::opening::open_children;
use crate::reserving::make_room;
use mf_search::Entry;
use mf_task::{Child, Expansion, Grown, Memory, Naming};

// The number of the expansion's state.
fn state_of<N: Naming>(expansion: &Expansion<N>) -> u64
    ensures { result ≡ expansion.now.state }
{
    expansion.state
}

// The expansion's content, which is what the search rules give at the row that it was made from.
fn grown_of<N: Naming>(expansion: &Expansion<N>) -> &Grown
    ensures value { result.now ≡ expansion.now.grown }
    ensures grown { IsGrownOf N.case expansion.now.from expansion.now.grown }
{
    &expansion.grown
}

// The worker is done with the state: its children are opened.
fn be_done<N: Naming>(ledger: &mut Ledger, worker: u16, state: u64, children: &[Child])
    requires kept { Keeps N.case ledger.old }
    requires low { 1 ≤ worker }
    requires high { worker ≤ length ledger.old.busy.items }
    requires children { All (IsChildOf N.case) children.now }
    requires listed { (space_of N.case).grow (at (space_of N.case) (world_of N.case (seen_of ledger.old)).opened state).state ≡ Listed (map (child_of N.case) children.now) }
    requires may { MayCome N.case (seen_of ledger.old) (Done worker state) }
    requires states { HasRoom (length children.now) ledger.old.tables }
    requires entries { length ledger.old.entries.items + length ledger.old.busy.items + 1 ≤ vec_capacity ledger.old.entries }
    ensures kept { Keeps N.case ledger.new }
    ensures after { seen_of ledger.new ≡ with_entry (seen_of ledger.old) (Done worker state) }
{
    open_children::<N>(&mut ledger.tables, state, children);
    ledger.busy[worker as usize - 1] = None;
    ledger.entries.push_reserved(Entry::Done { worker, state });
}

// The search ends where the instance leads from the state out of the width.
fn be_wide<N: Naming>(ledger: &mut Ledger, worker: u16, state: u64, instance: u32)
    requires kept { Keeps N.case ledger.old }
    requires may { MayCome N.case (seen_of ledger.old) (Wide worker state instance) }
    requires entries { length ledger.old.entries.items + length ledger.old.busy.items + 1 ≤ vec_capacity ledger.old.entries }
    ensures kept { Keeps N.case ledger.new }
    ensures after { seen_of ledger.new ≡ with_entry (seen_of ledger.old) (Wide worker state instance) }
{
    ledger.end = End::Wide { state, instance };
    ledger.entries.push_reserved(Entry::Wide {
        worker,
        state,
        instance,
    });
}

// The worker's expansion of this state, made from its row, is kept.
fn keep<N: Naming>(
    ledger: &mut Ledger,
    worker: u16,
    state: u64,
    expansion: &Expansion<N>,
) -> Result<(), Memory>
    requires kept { Keeps N.case ledger.old }
    requires low { 1 ≤ worker }
    requires high { worker ≤ length ledger.old.busy.items }
    requires going { (world_of N.case (seen_of ledger.old)).ending ≡ Going }
    requires state { state ≡ expansion.now.state }
    requires holds { (world_of N.case (seen_of ledger.old)).busy worker ≡ Some state }
    requires made { IsMadeAt N.case (seen_of ledger.old) worker expansion.now }
    ensures kept { Keeps N.case ledger.new }
    ensures may { MayCome N.case (seen_of ledger.old) (entry_of worker state expansion.now.grown) }
    ensures ok { OnOk result (seen_of ledger.new ≡ with_entry (seen_of ledger.old) (entry_of worker state expansion.now.grown)) }
    ensures err { OnErr result (seen_of ledger.new ≡ seen_of ledger.old) }
{
    match grown_of(expansion) {
        Grown::Made { children } => {
            let children = children.as_slice();
            make_room::<N>(ledger, children.len())?;
            be_done::<N>(ledger, worker, state, children);
        }
        Grown::Wide { instance } => {
            make_room::<N>(ledger, 0)?;
            be_wide::<N>(ledger, worker, state, *instance);
        }
    }
    Ok(())
}

// The worker hands in an expansion.
pub(crate) fn finish<N: Naming>(
    ledger: &mut Ledger,
    worker: u16,
    expansion: &Expansion<N>,
) -> Result<Finished, Memory>
    requires kept { Keeps N.case ledger.old }
    requires low { 1 ≤ worker }
    requires high { worker ≤ length ledger.old.busy.items }
    requires made { IsMadeAt N.case (seen_of ledger.old) worker expansion.now }
    ensures kept { Keeps N.case ledger.new }
    ensures ok { IfOk result (λ finished. FinishTells N.case (seen_of ledger.old) (seen_of ledger.new) worker expansion.now finished) }
    ensures err { OnErr result (seen_of ledger.new ≡ seen_of ledger.old) }
{
    if !ledger.end.is_going() {
        return Ok(Finished::Late);
    }
    if ledger.halted {
        return Ok(Finished::Late);
    }
    let given = state_of(expansion);
    let kept = ledger.busy[worker as usize - 1];
    if kept != Some(given) {
        return Ok(Finished::Strange { kept, given });
    }
    keep::<N>(ledger, worker, given, expansion)?;
    Ok(Finished::Kept)
}

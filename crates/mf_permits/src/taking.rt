ghost use Rattle.mf_permits.specs.Core.{TakeAnswers, TakeTells, MayCome, WritesRow, with_entry, world_of};
ghost use Rattle.mf_permits.specs.Tables.{HasTaskShape};
ghost use Rattle.mf_permits.specs.Ledger.{Keeps, choice_of, seen_of};
ghost use Rattle.mf_search.specs.declared.entry.Entry.TheVariants.{Take};
ghost use Rattle.std.specs.Prelude.{◌≡◌, ◌≤◌, length};

use crate::Taken;
use crate::holding::{Held, least_held};
use crate::ledger::{End, Ledger};
use crate::reading::write_row;
use mf_open::Key;
use mf_search::Entry;
use mf_store::Row;
use mf_task::Naming;

// The answer by the least key of an open state and the least state in expansion.
fn choose(first: Option<Key>, least: Option<Held>) -> Taken
    ensures { result ≡ choice_of first least }
{
    match (first, least) {
        (None, None) => Taken::Ended,
        (Some(key), None) => Taken::Go { state: key.state },
        (None, Some(Held { worker, value })) => Taken::NotYet { worker, value },
        (Some(key), Some(Held { worker, value })) => {
            if value < key.value {
                Taken::NotYet { worker, value }
            } else {
                Taken::Go { state: key.state }
            }
        }
    }
}

// The answer to a worker that asks for a state.
pub(crate) fn decide<N: Naming>(ledger: &Ledger, worker: u16) -> Taken
    requires kept { Keeps N.case ledger.now }
    requires low { 1 ≤ worker }
    requires high { worker ≤ length ledger.now.busy.items }
    ensures { TakeAnswers N.case (length ledger.now.busy.items) (world_of N.case (seen_of ledger.now)) ledger.now.halted worker result }
{
    if let Some(state) = ledger.busy[worker as usize - 1] {
        return Taken::Again { state };
    }
    if !ledger.end.is_going() {
        return Taken::Ended;
    }
    if ledger.halted {
        return Taken::Ended;
    }
    if ledger.is_spent() {
        return Taken::Ended;
    }
    let least = least_held(ledger.busy.as_slice(), ledger.tables.values.as_slice());
    choose(ledger.tables.open_list.least(), least)
}

// The worker takes the state of this number.
fn go<N: Naming>(ledger: &mut Ledger, worker: u16, state: u64)
    requires kept { Keeps N.case ledger.old }
    requires may { MayCome N.case (seen_of ledger.old) (Take worker state) }
    ensures kept { Keeps N.case ledger.new }
    ensures after { seen_of ledger.new ≡ with_entry (seen_of ledger.old) (Take worker state) }
{
    ledger.tables.open_list.take_least();
    ledger.takes += 1;
    ledger.entries.push_reserved(Entry::Take { worker, state });
    if ledger.tables.values[state as usize] == 0 {
        ledger.end = End::Goal { state };
    } else {
        ledger.busy[worker as usize - 1] = Some(state);
    }
}

// The worker asks for a state.
pub(crate) fn take<N: Naming>(ledger: &mut Ledger, worker: u16) -> Taken
    requires kept { Keeps N.case ledger.old }
    requires low { 1 ≤ worker }
    requires high { worker ≤ length ledger.old.busy.items }
    ensures kept { Keeps N.case ledger.new }
    ensures tells { TakeTells N.case (seen_of ledger.old) (seen_of ledger.new) worker result }
{
    let taken = decide::<N>(ledger, worker);
    if let Taken::Go { state } = taken {
        go::<N>(ledger, worker, state);
    }
    taken
}

// The worker asks for a state, whose row is then written.
pub(crate) fn take_into<N: Naming>(ledger: &mut Ledger, worker: u16, into: &mut Row) -> Taken
    requires kept { Keeps N.case ledger.old }
    requires low { 1 ≤ worker }
    requires high { worker ≤ length ledger.old.busy.items }
    requires shape { HasTaskShape N.case into.old }
    ensures kept { Keeps N.case ledger.new }
    ensures tells { TakeTells N.case (seen_of ledger.old) (seen_of ledger.new) worker result }
    ensures row { WritesRow N.case (world_of N.case (seen_of ledger.old)) into.old into.new result }
{
    match take::<N>(ledger, worker) {
        Taken::Go { state } => {
            write_row::<N>(ledger, state, into);
            Taken::Go { state }
        }
        Taken::Again { state } => Taken::Again { state },
        Taken::Ended => Taken::Ended,
        Taken::NotYet { worker, value } => Taken::NotYet { worker, value },
    }
}

ghost use Rattle.mf_permits.specs.Ledger.{Keeps, seen_of};
ghost use Rattle.mf_permits.specs.Tables.{AreTables, IsWhole};
ghost use Rattle.mf_search.specs.World.{opened_first};
ghost use Rattle.mf_task.specs.CaseRows.{IsNarrowRow, IsRoot, meaning_of};
ghost use Rattle.mf_task.specs.Successors.{space_of};
ghost use Rattle.std.specs.Prelude.{◌≡◌, ◌≤◌, [], false, IfOk, None, Some, length, replicate};

use crate::ledger::{End, Ledger};
use crate::opening::{enter, intern_new, words_fit};
use crate::reserving::reserve_states;
use crate::tables::Tables;
use mf_open::OpenList;
use mf_search::Maker;
use mf_store::{Row, Store};
use mf_task::{Memory, Naming, Root, Value};
use std::alloc::Global;

// The root's row.
pub(crate) fn row_of<N: Naming>(root: &Root<N>) -> &Row
    ensures row { result.now ≡ root.now.row }
    ensures root { IsRoot N.case root.now }
{
    &root.row
}

// The root's value.
fn value_of<N: Naming>(root: &Root<N>) -> Value
    ensures { result ≡ root.now.value }
{
    root.value
}

// No state is opened yet.
fn empty_tables(alloc: Global, row: &Row) -> Tables
    ensures words { result.store.word_count ≡ length row.now.bits }
    ensures values_count { result.store.value_count ≡ length row.now.values }
    ensures rows { result.store.rows ≡ [] }
    ensures values { result.values.items ≡ [] }
    ensures makers { result.makers.items ≡ [] }
    ensures keys { result.open_list.keys ≡ [] }
{
    Tables {
        store: Store::new(alloc, row.bits().len(), row.values().len()),
        values: Vec::new(alloc),
        makers: Vec::new(alloc),
        open_list: OpenList::new(alloc),
    }
}

// Opens the start.
fn open_start<N: Naming>(tables: Tables, row: &Row, value: u64) -> Result<Tables, Memory>
    requires row { IsNarrowRow N.case row.now }
    requires start { meaning_of N.case row.now ≡ (space_of N.case).start }
    requires value { (space_of N.case).value (space_of N.case).start ≡ Some value }
    requires whole { IsWhole N.case tables }
    requires none { AreTables N.case [] [] tables }
    ensures whole { IfOk result (λ tables. IsWhole N.case tables) }
    ensures opened { IfOk result (λ tables. AreTables N.case (opened_first (space_of N.case) ((space_of N.case).value (space_of N.case).start)) [] tables) }
{
    let mut tables = tables;
    reserve_states(&mut tables, 1)?;
    words_fit(row);
    let state = intern_new(&mut tables.store, row);
    enter(&mut tables, state, value, Maker::Start);
    Ok(tables)
}

// The tables of a search that begins.
fn first_tables<N: Naming>(alloc: Global, root: &Root<N>) -> Result<Tables, Memory>
    ensures whole { IfOk result (λ tables. IsWhole N.case tables) }
    ensures opened { IfOk result (λ tables. AreTables N.case (opened_first (space_of N.case) ((space_of N.case).value (space_of N.case).start)) [] tables) }
{
    let row = row_of(root);
    let tables = empty_tables(alloc, row);
    match value_of(root) {
        Value::Finite(value) => open_start::<N>(tables, row, value),
        Value::Infinite => Ok(tables),
    }
}

// No worker has a state in expansion.
fn all_idle(alloc: Global, workers: u16) -> Result<Vec<Option<u64>>, Memory>
    ensures { IfOk result (λ busy. busy.items ≡ replicate workers None) }
{
    Ok(vec![in alloc; None; workers as usize]?)
}

// The ledger of a search that begins.
pub(crate) fn begin<N: Naming>(
    alloc: Global,
    root: &Root<N>,
    budget: u64,
    workers: u16,
) -> Result<Ledger, Memory>
    requires budget { budget ≡ N.case.budget }
    requires low { 1 ≤ workers }
    requires high { workers ≤ 64 }
    ensures kept { IfOk result (λ ledger. Keeps N.case ledger) }
    ensures seen { IfOk result (λ ledger. seen_of ledger ≡ record { entries = []; workers = workers; halted = false }) }
{
    let tables = first_tables(alloc, root)?;
    let busy = all_idle(alloc, workers)?;
    let entries = Vec::with_capacity(alloc, workers as usize)?;
    Ok(Ledger {
        tables,
        busy,
        entries,
        takes: 0,
        end: End::Going,
        halted: false,
        budget,
    })
}

ghost use Rattle.mf_permits.specs.Ledger.{Keeps};
ghost use Rattle.mf_permits.specs.Tables.{values_of, words_of};
ghost use Rattle.mf_task.specs.Histories.{IsHistoryOf};
ghost use Rattle.std.specs.Prelude.{◌≡◌, ◌<◌, IfOk, Some, length, slice_get};

use crate::ledger::Ledger;
use crate::tables::Tables;
use mf_model::List;
use mf_store::{Row, Store};
use mf_task::{History, Memory, Naming};
use std::alloc::Global;

// The row of this number.
fn row_at(
    alloc: Global,
    store: &Store,
    words: usize,
    values: usize,
    number: u64,
) -> Result<Row, Memory>
    requires words { store.now.word_count ≡ words }
    requires values { store.now.value_count ≡ values }
    requires number { number < length store.now.rows }
    ensures { IfOk result (λ row. slice_get store.now.rows number ≡ Some row) }
{
    let mut row = Row::blank(alloc, words, values)?;
    store.read(number, &mut row);
    Ok(row)
}

// The rows of the store, in the order of their numbers.
fn all_rows(alloc: Global, store: &Store, words: usize, values: usize) -> Result<List<Row>, Memory>
    requires words { store.now.word_count ≡ words }
    requires values { store.now.value_count ≡ values }
    ensures { IfOk result (λ rows. rows ≡ store.now.rows) }
{
    let mut rows = List::new(alloc);
    let len = store.len();
    for number in 0..len {
        let row = row_at(alloc, store, words, values, number)?;
        rows.push(row)?;
    }
    Ok(rows)
}

// The history that the ledger keeps, whose rows have so many words of bits and so many values.
pub(crate) fn history_of<N: Naming>(
    alloc: Global,
    ledger: Ledger,
    words: usize,
    values: usize,
) -> Result<History, Memory>
    requires kept { Keeps N.case ledger }
    requires words { words ≡ words_of N.case }
    requires values { values ≡ values_of N.case }
    ensures history { IfOk result (λ history. IsHistoryOf N.case (length ledger.busy.items) history) }
    ensures entries { IfOk result (λ history. history.entries ≡ ledger.entries.items) }
{
    let rows = all_rows(alloc, &ledger.tables.store, words, values)?;
    let Ledger {
        tables,
        entries,
        ..
    } = ledger;
    let Tables { values, makers, .. } = tables;
    Ok(History {
        rows,
        values: List::from_vec(values),
        makers: List::from_vec(makers),
        entries: List::from_vec(entries),
    })
}

ghost use Rattle.mf_store.specs.Chains.{Hashes};
ghost use Rattle.mf_store.specs.Numbers.{Interns, AllDifferent, AllShaped, hash_of};
ghost use Rattle.mf_store.specs.Rows.{HasShape};
ghost use Rattle.mf_store.specs.Stored.{StoredRows, with_room, with_row};
ghost use Rattle.std.specs.Prelude.{◌≡◌, ◌≢◌, ◌<◌, ℕ, [], Contains, None, Some, IfNone, IfOk, IfSome, IsOk, length, map, max, slice_get, OnErr, OnOk};

use crate::chains::Chains;
use crate::packed_rows::PackedRows;
use crate::row::Row;
use mf_fraction::Memory;
use std::alloc::Global;
use std::hash::{FoldHasher, Hash, Hasher};
use std::marker::Model;

/// Different rows of one shape, under numbers that count from 0 in the order in which they were added.
///
/// The rows lie packed in pages of 1,024 rows: eight bytes for each word and for each value that is undefined or a
/// whole number.
#[derive(Debug, Drop)]
pub struct Store {
    rows: PackedRows,
    chains: Chains,
}

impl Model for Store {
    ghost use Rattle.mf_store.specs.Stored.{StoredRows};
    ghost use Rattle.mf_store.specs.Numbers.{IsStore};

    ghost Value = { StoredRows };

    ghost view = { λ s. s.rows };

    ghost invariant = { λ s. IsStore s.rows s.chains };
}

impl Store {
    /// An empty store of rows with so many words of bits and so many values.
    pub fn new(alloc: Global, words: usize, values: usize) -> Store
        ensures { result ≡ record { word_count = words; value_count = values; rows = []; room = 0 } }
    {
        Store {
            rows: PackedRows::new(alloc, words, values),
            chains: Chains::new(alloc),
        }
    }

    /// How many rows there are.
    pub fn len(&self) -> u64
        ensures len { result ≡ length self.now.rows }
        ensures different { AllDifferent self.now.rows }
        ensures shaped { AllShaped self.now }
    {
        self.rows.len() as u64
    }

    /// Makes room for so many new rows: they are then added with no memory. `Memory` leaves the store as it was.
    pub fn reserve(&mut self, more: usize) -> Result<(), Memory>
        ensures ok { OnOk result (self.new ≡ with_room self.old (max self.old.room more)) }
        ensures err { OnErr result (self.new ≡ self.old) }
    {
        self.chains.reserve(more)?;
        self.rows.reserve(more)?;
        Ok(())
    }

    /// The number of a row, and whether it is new: a new row is added. `Memory` leaves the store as it was; it comes
    /// only where the row is new and no room is reserved.
    pub fn intern(&mut self, row: &Row) -> Result<(u64, bool), Memory>
        requires shape { HasShape self.old.word_count self.old.value_count row.now }
        ensures ok { IfOk result (λ r. Interns self.old row.now self.new r) }
        ensures room { 0 < self.old.room → IsOk result }
        ensures known { Contains self.old.rows row.now → IsOk result }
        ensures err { OnErr result (self.new ≡ self.old) }
    {
        let hash = hash_of_row(row);
        match find(&self.rows, &self.chains, row, hash) {
            Some(number) => Ok((number as u64, false)),
            None => self.add(row, hash),
        }
    }

    /// The number of a row; `None` exactly where the row is not in the store.
    pub fn known(&self, row: &Row) -> Option<u64>
        requires shape { HasShape self.now.word_count self.now.value_count row.now }
        ensures some { IfSome result (λ number. slice_get self.now.rows number ≡ Some row.now) }
        ensures none { IfNone result (Contains self.now.rows row.now → ⊥) }
    {
        match find(&self.rows, &self.chains, row, hash_of_row(row)) {
            Some(number) => Some(number as u64),
            None => None,
        }
    }

    /// Writes the row with this number into a row of the store's shape.
    pub fn read(&self, number: u64, into: &mut Row)
        requires number { number < length self.now.rows }
        requires shape { HasShape self.now.word_count self.now.value_count into.old }
        ensures { slice_get self.now.rows number ≡ Some into.new }
    {
        self.rows.read(number as usize, into);
    }

    // Adds a row that is not there.
    fn add(&mut self, row: &Row, hash: u64) -> Result<(u64, bool), Memory>
        requires shape { HasShape self.old.word_count self.old.value_count row.now }
        requires hash { hash ≡ hash_of row.now }
        requires absent { (j : ℕ) → slice_get self.old.rows j ≢ Some row.now }
        ensures ok { IfOk result (λ r. Interns self.old row.now self.new r) }
        ensures room { 0 < self.old.room → IsOk result }
        ensures err { OnErr result (self.new ≡ self.old) }
    {
        if self.rows.room() == 0 {
            self.reserve(1)?;
        }
        Ok((self.push(row, hash), true))
    }

    // The same where there is room.
    fn push(&mut self, row: &Row, hash: u64) -> u64
        requires shape { HasShape self.old.word_count self.old.value_count row.now }
        requires hash { hash ≡ hash_of row.now }
        requires absent { (j : ℕ) → slice_get self.old.rows j ≢ Some row.now }
        requires room { 0 < self.old.room }
        ensures number { result ≡ length self.old.rows }
        ensures added { self.new ≡ with_row self.old row.now }
    {
        let number = self.rows.len();
        self.rows.push(row);
        self.chains.push(hash);
        number as u64
    }
}

pub(crate) fn hash_of_row(row: &Row) -> u64
    ensures { result ≡ hash_of row.now }
{
    let mut hasher = FoldHasher::default();
    row.hash(&mut hasher);
    hasher.finish()
}

// The number of a row, among the rows of its hash.
fn find(rows: &PackedRows, chains: &Chains, row: &Row, hash: u64) -> Option<usize>
    requires shape { HasShape rows.now.word_count rows.now.value_count row.now }
    requires hash { hash ≡ hash_of row.now }
    requires hashes { chains.now.hashes ≡ map hash_of rows.now.rows }
    ensures some { IfSome result (λ number. slice_get rows.now.rows number ≡ Some row.now) }
    ensures none { IfNone result ((j : ℕ) → slice_get rows.now.rows j ≢ Some row.now) }
{
    let mut next = chains.first(hash);
    while let Some(number) = next {
        if rows.is_at(number, row) {
            return Some(number);
        }
        next = chains.after(number);
    }
    None
}

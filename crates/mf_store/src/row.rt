ghost use Rattle.mf_store.specs.Packed.{row_of};
ghost use Rattle.mf_store.specs.Rows.{bit_in};
ghost use Rattle.mf_store.specs.SameRows.{same_rows, same_rows-Decides, same_rows_equiv, row_writes};
ghost use Rattle.std.proofs.Common.{ap};
ghost use Rattle.std.specs.Bool.{Decides};
ghost use Rattle.std.specs.Cmp.{partial_equiv_from_equiv};
ghost use Rattle.std.specs.Int.{bit_at};
ghost use Rattle.std.specs.Prelude.{◌≡◌, ◌≢◌, ◌/◌, ◌+◌, ◌<◌, ℕ, None, IfOk, get_or, length, nat_eq, replicate, set};

use crate::strip::{are_values, unpack_values};
use mf_fraction::{Frac, Memory};
use std::alloc::Global;
use std::hash::{Hash, Hasher};
use std::marker::Model;

const WORD: usize = 64;

/// A packed state: words of bits, and values that are exact fractions or undefined. The numbers of words and
/// values never change.
#[derive(Debug, Drop)]
pub struct Row {
    bits: Vec<u64>,
    values: Vec<Option<Frac>>,
}

impl Model for Row {
    ghost use Rattle.mf_store.specs.Rows.{RowLists};

    ghost Value = { RowLists };

    ghost view = { λ row. record { bits = row.bits.items; values = row.values.items } };
}

impl Row {
    /// A row whose bits are all unset and whose values are all undefined.
    pub fn blank(alloc: Global, words: usize, values: usize) -> Result<Row, Memory>
        ensures bits { IfOk result (λ row. row.bits ≡ replicate words 0) }
        ensures values { IfOk result (λ row. row.values ≡ replicate values None) }
    {
        let bits = vec![in alloc; 0; words]?;
        let values = vec![in alloc; None; values]?;
        Ok(Row { bits, values })
    }

    /// The words of bits: the bit at place `n` is bit `n % 64` of word `n / 64`.
    pub fn bits(&self) -> &[u64]
        ensures { result.now ≡ self.now.bits }
    {
        self.bits.as_slice()
    }

    /// The values, `None` where one is undefined.
    pub fn values(&self) -> &[Option<Frac>]
        ensures { result.now ≡ self.now.values }
    {
        self.values.as_slice()
    }

    /// Whether the bit at this place is set.
    pub fn bit(&self, place: usize) -> bool
        requires { place / 64 < length self.now.bits }
        ensures { result ≡ bit_in self.now.bits place }
    {
        (self.bits[place / WORD] >> (place % WORD)) & 1 == 1
    }

    /// Sets or unsets the bit at this place.
    pub fn set_bit(&mut self, place: usize, on: bool)
        requires { place / 64 < length self.old.bits }
        ensures bit { bit_in self.new.bits place ≡ on }
        ensures others { (other : ℕ) → other ≢ place → bit_in self.new.bits other ≡ bit_in self.old.bits other }
        ensures words { length self.new.bits ≡ length self.old.bits }
        ensures values { self.new.values ≡ self.old.values }
    {
        let word = self.bits[place / WORD];
        self.bits[place / WORD] = with_bit(word, place % WORD, on);
    }

    /// The value at this place, `None` where it is undefined.
    pub fn value(&self, place: usize) -> Option<Frac>
        requires { place < length self.now.values }
        ensures { result ≡ get_or self.now.values place None }
    {
        self.values[place]
    }

    /// Sets the value at this place.
    pub fn set_value(&mut self, place: usize, value: Option<Frac>)
        requires { place < length self.old.values }
        ensures values { self.new.values ≡ set self.old.values place value }
        ensures bits { self.new.bits ≡ self.old.bits }
    {
        self.values[place] = value;
    }

    /// Becomes equal to `other`, a row of the same numbers of words and values.
    pub fn copy_from(&mut self, other: &Row)
        requires words { length self.old.bits ≡ length other.now.bits }
        requires values { length self.old.values ≡ length other.now.values }
        ensures { self.new ≡ other.now }
    {
        self.bits
            .as_mut_slice()
            .copy_from_slice(other.bits.as_slice());
        self.values
            .as_mut_slice()
            .copy_from_slice(other.values.as_slice());
    }

    /// An equal row of its own.
    pub fn copy(&self, alloc: Global) -> Result<Row, Memory>
        ensures { IfOk result (λ row. row ≡ self.now) }
    {
        let bits = Vec::from_slice(alloc, self.bits.as_slice())?;
        let values = Vec::from_slice(alloc, self.values.as_slice())?;
        Ok(Row { bits, values })
    }

    // Whether the row is the one that this strip keeps.
    pub(crate) fn is_in(&self, strip: &[u64], fractions: &[Frac]) -> bool
        requires { length strip.now ≡ length self.now.values + length self.now.bits }
        ensures { Decides result (row_of (length self.now.values) fractions.now strip.now ≡ self.now) }
    {
        let (words, bits) = strip.split_at(self.values.len());
        bits == self.bits.as_slice() && are_values(words, fractions, self.values.as_slice())
    }

    // Becomes the row that this strip keeps.
    pub(crate) fn unpack(&mut self, strip: &[u64], fractions: &[Frac])
        requires { length strip.now ≡ length self.old.values + length self.old.bits }
        ensures { self.new ≡ row_of (length self.old.values) fractions.now strip.now }
    {
        let (words, bits) = strip.split_at(self.values.len());
        unpack_values(words, fractions, self.values.as_mut_slice());
        self.bits.as_mut_slice().copy_from_slice(bits);
    }
}

// The word with the bit at this place set or unset.
fn with_bit(word: u64, place: usize, on: bool) -> u64
    requires { place < 64 }
    ensures bit { nat_eq (bit_at result place) 1 ≡ on }
    ensures others { (other : ℕ) → other < 64 → other ≢ place → bit_at result other ≡ bit_at word other }
{
    let mask = 1u64 << place;
    if on { word | mask } else { word & !mask }
}

impl PartialEq for Row {
    ghost eq = { same_rows };

    ghost laws = { partial_equiv_from_equiv same_rows_equiv };

    fn eq(&self, other: &Row) -> bool {
        self.bits.as_slice() == other.bits.as_slice()
            && self.values.as_slice() == other.values.as_slice()
    }
}

impl Eq for Row {
    ghost laws = { same_rows_equiv };
}

impl Hash for Row {
    ghost hash_input = { row_writes };

    ghost respects_eq = { λ a b same. ap row_writes ((same_rows-Decides a b).0 same) };

    fn hash<H: Hasher>(&self, state: &mut H) {
        self.bits.as_slice().hash(state);
        self.values.as_slice().hash(state);
    }
}

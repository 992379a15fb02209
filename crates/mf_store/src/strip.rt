//! The words of a row's values.
ghost use Rattle.mf_store.specs.Packed.{value_of, fractions_in, row_of, IsCoded, IsStrip};
ghost use Rattle.std.specs.Bool.{Decides};
ghost use Rattle.std.specs.List.{All, flat_map};
ghost use Rattle.std.specs.Prelude.{◌≡◌, ◌++◌, ◌+◌, ◌≤◌, [], length, map, vec_len, vec_capacity};

use crate::row::Row;
use crate::word::{packed, unpacked};
use mf_fraction::Frac;

// Makes the strip that keeps the row; fractions that are no whole numbers go to the end of the list.
pub(crate) fn pack(row: &Row, strip: &mut Vec<u64>, fractions: &mut Vec<Frac>)
    requires room { length row.now.values + length row.now.bits ≤ vec_capacity strip.old }
    requires fractions { vec_len fractions.old + length row.now.values ≤ vec_capacity fractions.old }
    ensures row { row_of (length row.now.values) fractions.new.items strip.new.items ≡ row.now }
    ensures strip { IsStrip (length row.now.bits) (length row.now.values) (length fractions.new.items) strip.new.items }
    ensures fractions { fractions.new.items ≡ fractions.old.items ++ flat_map fractions_in row.now.values }
    ensures capacity { vec_capacity strip.old ≤ vec_capacity strip.new }
    ensures fraction_capacity { vec_capacity fractions.new ≡ vec_capacity fractions.old }
{
    strip.clear();
    pack_values(row.values(), strip, fractions);
    let Ok(()) = strip.extend_from_slice(row.bits()) else {
        unreachable!()
    };
}

fn pack_values(values: &[Option<Frac>], words: &mut Vec<u64>, fractions: &mut Vec<Frac>)
    requires empty { words.old.items ≡ [] }
    requires room { length values.now ≤ vec_capacity words.old }
    requires fractions { vec_len fractions.old + length values.now ≤ vec_capacity fractions.old }
    ensures values { map (value_of fractions.new.items) words.new.items ≡ values.now }
    ensures coded { All (IsCoded (length fractions.new.items)) words.new.items }
    ensures fractions { fractions.new.items ≡ fractions.old.items ++ flat_map fractions_in values.now }
    ensures capacity { vec_capacity words.new ≡ vec_capacity words.old }
    ensures fraction_capacity { vec_capacity fractions.new ≡ vec_capacity fractions.old }
{
    for value in values {
        let word = packed(*value, fractions);
        words.push_reserved(word);
    }
}

// Whether the words keep these values.
pub(crate) fn are_values(words: &[u64], fractions: &[Frac], values: &[Option<Frac>]) -> bool
    requires { length words.now ≡ length values.now }
    ensures { Decides result (map (value_of fractions.now) words.now ≡ values.now) }
{
    for i in 0..words.len() {
        if unpacked(words[i], fractions) != values[i] {
            return false;
        }
    }
    true
}

// Writes the values that the words keep.
pub(crate) fn unpack_values(words: &[u64], fractions: &[Frac], values: &mut [Option<Frac>])
    requires { length words.now ≡ length values.old }
    ensures { values.new ≡ map (value_of fractions.now) words.now }
{
    for i in 0..words.len() {
        values[i] = unpacked(words[i], fractions);
    }
}

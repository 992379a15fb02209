ghost use Rattle.mf_store.specs.Rows.{HasShape};
ghost use Rattle.std.specs.Prelude.{◌≡◌, ◌<◌, [], length};

use crate::store::hash_of_row;
use crate::{Memory, Row, Store};
use mf_fraction::Frac;
use std::hash::{FoldHasher, Hasher};
use std::process::Abort;
use std::test::Fail;

fn expect(rt: &impl Abort, holds: bool) {
    assert!(rt; holds);
}

fn fraction(rt: &impl Abort, n: i64, d: i64) -> Frac {
    match Frac::new(n, d) {
        Ok(value) => value,
        Err(_) => panic!(rt; "no fraction"),
    }
}

// Writes a word of the row, bit by bit.
fn set_word(row: &mut Row, at: usize, word: u64)
    requires within { at < length row.old.bits }
    requires few { length row.old.bits < 1000 }
    ensures bits { length row.new.bits ≡ length row.old.bits }
    ensures values { row.new.values ≡ row.old.values }
{
    for place in 0..64 {
        row.set_bit(64 * at + place, (word >> place) & 1 == 1);
    }
}

// Makes the row with this number in a list of rows that have 50 hashes in turn: the second word takes the hasher's
// state back to 0, so that the hash is that of the third word.
fn collide(row: &mut Row, number: u64)
    requires { length row.old.bits ≡ 3 }
    ensures bits { length row.new.bits ≡ 3 }
    ensures values { row.new.values ≡ row.old.values }
{
    let mut hasher = FoldHasher::default();
    hasher.write_usize(3);
    hasher.write_u64(number);
    set_word(row, 0, number);
    set_word(row, 1, hasher.finish());
    set_word(row, 2, number % 50);
}

// Interns 3,000 rows, which fill two pages and part of a third; the numbers count up.
fn intern_all(rt: &impl Abort, store: &mut Store, row: &mut Row, new: bool) -> Result<(), Memory>
    requires words { (store.old.word_count ≡ 3) × (length row.old.bits ≡ 3) }
    requires values { length row.old.values ≡ store.old.value_count }
    ensures words { (store.new.word_count ≡ 3) × (length row.new.bits ≡ 3) }
    ensures values { length row.new.values ≡ store.new.value_count }
{
    for number in 0..3000 {
        collide(row, number);
        let given = store.intern(row)?;
        expect(rt, given == (number, new));
    }
    Ok(())
}

#[test]
fn rows_of_one_hash_are_apart(rt: HostRuntime) -> Result<(), Fail> {
    let mut row = Row::blank(rt.alloc(), 3, 2)?;
    row.set_value(1, Some(fraction(&rt, -1, 3)));
    let mut store = Store::new(rt.alloc(), 3, 2);
    intern_all(&rt, &mut store, &mut row, true)?;
    intern_all(&rt, &mut store, &mut row, false)?;
    Ok(())
}

#[test]
fn hashes_are_shared(rt: HostRuntime) -> Result<(), Fail> {
    let mut row = Row::blank(rt.alloc(), 3, 0)?;
    collide(&mut row, 7);
    let hash = hash_of_row(&row);
    collide(&mut row, 2057);
    expect(&rt, hash_of_row(&row) == hash);
    Ok(())
}

// Sets bit 100 and both values of a row of two words, and makes the other row equal.
fn copies(rt: &impl Abort, row: &mut Row, other: &mut Row)
    requires row { HasShape 2 2 row.old }
    requires other { HasShape 2 2 other.old }
    ensures row { HasShape 2 2 row.new }
    ensures other { HasShape 2 2 other.new }
{
    row.set_bit(100, true);
    row.set_value(0, Some(fraction(rt, -7, 1)));
    row.set_value(1, Some(fraction(rt, 3, 2)));
    expect(rt, row.bit(100) && &*row != &*other);
    other.copy_from(row);
    expect(rt, &*row == &*other);
}

// A row is new once, and is then known and read.
fn intern_twice(rt: &impl Abort, store: &mut Store, row: &Row, into: &mut Row) -> Result<(), Memory>
    requires store { (store.old.word_count ≡ 2) × (store.old.value_count ≡ 2) × (store.old.rows ≡ []) }
    requires row { HasShape 2 2 row.now }
    requires into { HasShape 2 2 into.old }
{
    store.reserve(1)?;
    let first = store.intern(row)?;
    let second = store.intern(row)?;
    expect(rt, first == (0, true) && second == (0, false));
    store.read(0, into);
    expect(rt, &*into == row);
    Ok(())
}

#[test]
fn a_row_is_interned_once(rt: HostRuntime) -> Result<(), Fail> {
    let mut row = Row::blank(rt.alloc(), 2, 2)?;
    let mut other = row.copy(rt.alloc())?;
    copies(&rt, &mut row, &mut other);
    other.set_bit(3, true);
    let mut store = Store::new(rt.alloc(), 2, 2);
    intern_twice(&rt, &mut store, &row, &mut other)?;
    Ok(())
}

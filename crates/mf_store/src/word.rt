//! One word for each value.
ghost use Rattle.mf_fraction.specs.Exact.{whole};
ghost use Rattle.mf_store.specs.Packed.{value_of, fractions_in, IsCoded};
ghost use Rattle.std.specs.Prelude.{◌≡◌, ◌++◌, ◌<◌, ◌≤◌, ◌^◌, List, Some, length, slice_get, unsigned_abs, vec_len, vec_capacity};
ghost use Rattle.mf_fraction.specs.Exact.{Number};

use mf_fraction::{Frac, Wide};

// The greatest size of a whole number.
const GREATEST: u64 = 1 << 62;

// The word of an undefined value; -n has the word UNDEFINED + n.
const UNDEFINED: u64 = 1 << 63;

// The word of the first place in the list of fractions.
const FIRST_FRACTION: u64 = UNDEFINED + GREATEST + 1;

// The value that a word keeps, beside a list of fractions.
pub(crate) fn unpacked(word: u64, fractions: &[Frac]) -> Option<Frac>
    ensures { result ≡ value_of fractions.now word }
{
    if word <= GREATEST {
        return Some(whole_number(word as i64));
    }
    if word <= UNDEFINED {
        return None;
    }
    if word < FIRST_FRACTION {
        return Some(whole_number(-((word - UNDEFINED) as i64)));
    }
    fraction_at((word - FIRST_FRACTION) as usize, fractions)
}

fn fraction_at(place: usize, fractions: &[Frac]) -> Option<Frac>
    ensures { result ≡ slice_get fractions.now place }
{
    fractions.get(place).copied()
}

fn whole_number(n: i64) -> Frac
    requires { unsigned_abs n ≤ 2 ^ 62 }
    ensures { result ≡ whole n }
{
    match Frac::whole(n) {
        Ok(number) => number,
        Err(Wide) => unreachable!(),
    }
}

// The word that keeps a value; a value that is no whole number goes to the end of the fractions.
pub(crate) fn packed(value: Option<Frac>, fractions: &mut Vec<Frac>) -> u64
    requires { vec_len fractions.old < vec_capacity fractions.old }
    ensures value { value_of fractions.new.items result ≡ value }
    ensures coded { IsCoded (length fractions.new.items) result }
    ensures fractions { fractions.new.items ≡ fractions.old.items ++ fractions_in value }
    ensures capacity { vec_capacity fractions.new ≡ vec_capacity fractions.old }
{
    match value {
        None => UNDEFINED,
        Some(number) => packed_number(number, fractions),
    }
}

fn packed_number(number: Frac, fractions: &mut Vec<Frac>) -> u64
    requires { vec_len fractions.old < vec_capacity fractions.old }
    ensures value { value_of fractions.new.items result ≡ Some number }
    ensures coded { IsCoded (length fractions.new.items) result }
    ensures fractions { fractions.new.items ≡ fractions.old.items ++ fractions_in (Some number) }
    ensures capacity { vec_capacity fractions.new ≡ vec_capacity fractions.old }
{
    if number.denominator() == 1 {
        return word_of_whole(number.numerator());
    }
    let place = fractions.as_slice().len();
    fractions.push_reserved(number);
    FIRST_FRACTION + place as u64
}

fn word_of_whole(n: i64) -> u64
    requires { unsigned_abs n ≤ 2 ^ 62 }
    ensures value { (fractions : List Number) → value_of fractions result ≡ Some (whole n) }
    ensures coded { IsCoded 0 result }
{
    if n < 0 {
        UNDEFINED + n.unsigned_abs()
    } else {
        n as u64
    }
}

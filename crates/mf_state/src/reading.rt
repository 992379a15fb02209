ghost use Rattle.mf_store.specs.Rows.{bit_in};
ghost use Rattle.std.specs.Prelude.{◌≡◌, get_or, None};

use mf_fraction::Frac;
use mf_task::Row;

const WORD: usize = 64;

// Whether the atom is true at the row.
pub(crate) fn is_true(row: &Row, atom: u32) -> bool
    ensures { result ≡ bit_in row.now.bits atom }
{
    let place = atom as usize;
    place / WORD < row.bits().len() && row.bit(place)
}

// The value of the term at the row, if it is defined.
pub(crate) fn value_of(row: &Row, term: u32) -> Option<Frac>
    ensures { result ≡ get_or row.now.values term None }
{
    let place = term as usize;
    if place < row.values().len() {
        row.value(place)
    } else {
        None
    }
}

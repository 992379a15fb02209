ghost use Rattle.mf_fraction.specs.Checked.{checked};
ghost use Rattle.mf_fraction.specs.Exact.{reduce, whole};
ghost use Rattle.mf_fraction.specs.Gcd.{gcd};
ghost use Rattle.mf_fraction.specs.Parts.{with_sign};
ghost use Rattle.std.specs.Prelude.{◌≡◌, ◌<◌, ◌≤◌, ◌^◌};

use crate::divisor::divisor;
use crate::{Frac, Wide};

// The greatest size of a part.
const LIMIT: u64 = 1 << 62;

// The fraction n / d in lowest terms.
pub(crate) fn lowest(n: i128, d: u128) -> Result<Frac, Wide>
    requires { 0 < d }
    ensures { result ≡ checked (reduce n d) }
{
    let size = n.unsigned_abs();
    let common = divisor(size, d);
    narrow(n < 0, size / common, d / common)
}

// The fraction with these parts, which have no common divisor.
fn narrow(negative: bool, size: u128, d: u128) -> Result<Frac, Wide>
    requires positive { 0 < d }
    requires lowest { gcd size d ≡ 1 }
    ensures { result ≡ checked (record { num = with_sign negative size; den = d }) }
{
    if size > u128::from(LIMIT) || d > u128::from(LIMIT) {
        return Err(Wide);
    }
    Ok(Frac {
        numerator: signed(negative, size as u64),
        denominator: d as u64,
    })
}

// A numerator from its sign and its size.
fn signed(negative: bool, size: u64) -> i64
    requires { size ≤ 2 ^ 62 }
    ensures { result ≡ with_sign negative size }
{
    if negative {
        -(size as i64)
    } else {
        size as i64
    }
}

// The whole number n.
pub(crate) fn whole_fraction(n: i128) -> Result<Frac, Wide>
    ensures { result ≡ checked (whole n) }
{
    if n.unsigned_abs() > u128::from(LIMIT) {
        return Err(Wide);
    }
    Ok(Frac {
        numerator: n as i64,
        denominator: 1,
    })
}

ghost use Rattle.mf_fraction.specs.Checked.{checked, checked_quotient};
ghost use Rattle.mf_fraction.specs.Exact.{sum_of, difference_of, product_of, quotient_of};
ghost use Rattle.mf_fraction.specs.Parts.{turned};
ghost use Rattle.std.specs.Prelude.{◌≡◌, ◌≤◌, ◌<◌, ◌*◌, ◌^◌, ◌*ℤ◌, pos, unsigned_abs};

use crate::lowest::{lowest, whole_fraction};
use crate::{DivFault, Frac, Wide};

/// The exact sum in lowest terms, or `Wide` exactly where it does not fit.
pub fn add(a: Frac, b: Frac) -> Result<Frac, Wide>
    ensures { result ≡ checked (sum_of a b) }
{
    if a.denominator == 1 && b.denominator == 1 {
        return whole_fraction(i128::from(a.numerator) + i128::from(b.numerator));
    }
    let left = times(a.numerator, b.denominator);
    let right = times(b.numerator, a.denominator);
    lowest(left + right, times_sizes(a.denominator, b.denominator))
}

/// The exact difference in lowest terms, or `Wide` exactly where it does not fit.
pub fn sub(a: Frac, b: Frac) -> Result<Frac, Wide>
    ensures { result ≡ checked (difference_of a b) }
{
    if a.denominator == 1 && b.denominator == 1 {
        return whole_fraction(i128::from(a.numerator) - i128::from(b.numerator));
    }
    let left = times(a.numerator, b.denominator);
    let right = times(b.numerator, a.denominator);
    lowest(left - right, times_sizes(a.denominator, b.denominator))
}

/// The exact product in lowest terms, or `Wide` exactly where it does not fit.
pub fn mul(a: Frac, b: Frac) -> Result<Frac, Wide>
    ensures { result ≡ checked (product_of a b) }
{
    let top = times_signed(a.numerator, b.numerator);
    if a.denominator == 1 && b.denominator == 1 {
        return whole_fraction(top);
    }
    lowest(top, times_sizes(a.denominator, b.denominator))
}

/// The exact quotient in lowest terms, with the sign in the numerator. `ZeroDivisor` comes exactly
/// where `b` is 0, and else `Wide` exactly where the quotient does not fit.
pub fn div(a: Frac, b: Frac) -> Result<Frac, DivFault>
    ensures { result ≡ checked_quotient (quotient_of a b) }
{
    if b.numerator == 0 {
        return Err(DivFault::ZeroDivisor);
    }
    let top = times(a.numerator, b.denominator);
    let bottom = times_sizes(a.denominator, b.numerator.unsigned_abs());
    match lowest(turned(b.numerator < 0, top), bottom) {
        Ok(quotient) => Ok(quotient),
        Err(Wide) => Err(DivFault::Wide),
    }
}

// A numerator times a denominator.
pub(crate) fn times(n: i64, d: u64) -> i128
    requires first { unsigned_abs n ≤ 2 ^ 62 }
    requires second { d ≤ 2 ^ 62 }
    ensures value { result ≡ n *ℤ pos d }
    ensures size { unsigned_abs result ≤ 2 ^ 124 }
{
    i128::from(n) * i128::from(d)
}

// n, or -n where the sign is set.
pub(crate) fn turned(negative: bool, n: i128) -> i128
    requires { unsigned_abs n ≤ 2 ^ 124 }
    ensures { result ≡ turned negative n }
{
    if negative { -n } else { n }
}

// The product of two numerators.
fn times_signed(n: i64, m: i64) -> i128
    requires first { unsigned_abs n ≤ 2 ^ 62 }
    requires second { unsigned_abs m ≤ 2 ^ 62 }
    ensures value { result ≡ n *ℤ m }
{
    i128::from(n) * i128::from(m)
}

// The product of two sizes.
fn times_sizes(n: u64, m: u64) -> u128
    requires first { n ≤ 2 ^ 62 }
    requires second { m ≤ 2 ^ 62 }
    ensures { result ≡ n * m }
{
    u128::from(n) * u128::from(m)
}

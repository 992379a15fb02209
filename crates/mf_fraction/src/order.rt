ghost use Rattle.mf_fraction.specs.Exact.{order_of, sign_of};
ghost use Rattle.std.specs.Prelude.{◌≡◌, ◌↔◌};

use crate::Frac;
use crate::arithmetic::times;
use std::cmp::Ordering;

/// The order of the exact values. `Equal` comes exactly for equal fractions.
pub fn cmp(a: Frac, b: Frac) -> Ordering
    ensures order { result ≡ order_of a b }
    ensures equal { (result ≡ Ordering.Equal) ↔ (a ≡ b) }
{
    if a.denominator == b.denominator {
        return a.numerator.cmp(&b.numerator);
    }
    let left = times(a.numerator, b.denominator);
    let right = times(b.numerator, a.denominator);
    left.cmp(&right)
}

/// -1, 0 or 1: the sign of the value.
pub fn sign(a: Frac) -> i8
    ensures { result ≡ sign_of a }
{
    a.numerator.signum() as i8
}

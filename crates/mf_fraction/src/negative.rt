ghost use Rattle.mf_fraction.specs.Exact.{fits, negative_of};
ghost use Rattle.std.specs.Prelude.{◌≡◌, true};

use crate::Frac;

/// The fraction with the other sign.
pub fn neg(a: Frac) -> Frac
    ensures value { result ≡ negative_of a }
    ensures fits { fits result ≡ true }
{
    Frac {
        numerator: -a.numerator,
        denominator: a.denominator,
    }
}

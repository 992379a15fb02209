ghost use Rattle.mf_fraction.specs.Checked.{checked, checked_quotient};
ghost use Rattle.mf_fraction.specs.Exact.{whole, quotient_of};
ghost use Rattle.std.proofs.Common.{rules};
ghost use Rattle.std.specs.Cmp.Rules.{comparing, hashing};
ghost use Rattle.std.specs.Hash as fed;
ghost use Rattle.std.specs.Ordering.{on, eq_of_both, int_eq};
ghost use Rattle.std.specs.Prelude.{◌≡◌, ◌<◌, ◌≤◌, ◌^◌, ◌++◌, nat_eq, unsigned_abs};

use crate::arithmetic::turned;
use crate::lowest::{lowest, whole_fraction};
use crate::{DivFault, Wide};
use std::hash::{Hash, Hasher};
use std::marker::Model;

/// A fraction in lowest terms, with a denominator of at least 1 and both parts at most 2^62 in size.
#[derive(Clone, Copy, Debug)]
pub struct Frac {
    pub(crate) numerator: i64,
    pub(crate) denominator: u64,
}

impl Model for Frac {
    ghost use Rattle.mf_fraction.specs.Exact.{Number};
    ghost use Rattle.mf_fraction.specs.Kept.{Kept};

    ghost Value = { Number };

    ghost view = { λ a. record { num = a.numerator; den = a.denominator } };

    ghost invariant = { λ a. Kept a.numerator a.denominator };

    ghost inverse = { λ f. record { numerator = f.num; denominator = f.den } };
}

impl Frac {
    /// The whole number `n`, or `Wide` exactly where it is above 2^62 in size.
    pub fn whole(n: i64) -> Result<Frac, Wide>
        ensures { result ≡ checked (whole n) }
    {
        whole_fraction(i128::from(n))
    }

    /// The fraction `n / d` in lowest terms, with the sign in the numerator. `ZeroDivisor` comes
    /// exactly where `d` is 0, and else `Wide` exactly where the fraction does not fit.
    pub fn new(n: i64, d: i64) -> Result<Frac, DivFault>
        ensures { result ≡ checked_quotient (quotient_of (whole n) (whole d)) }
    {
        if d == 0 {
            return Err(DivFault::ZeroDivisor);
        }
        let top = turned(d < 0, i128::from(n));
        match lowest(top, u128::from(d.unsigned_abs())) {
            Ok(quotient) => Ok(quotient),
            Err(Wide) => Err(DivFault::Wide),
        }
    }

    /// The numerator in lowest terms, which has the sign: at most 2^62 in size.
    pub fn numerator(self) -> i64
        ensures value { result ≡ self.num }
        ensures size { unsigned_abs result ≤ 2 ^ 62 }
    {
        self.numerator
    }

    /// The denominator in lowest terms, from 1 to 2^62.
    pub fn denominator(self) -> u64
        ensures value { result ≡ self.den }
        ensures positive { 0 < result }
        ensures size { result ≤ 2 ^ 62 }
    {
        self.denominator
    }
}

impl PartialEq for Frac {
    ghost eq = { eq_of_both (on (λ f. f.num) int_eq) (on (λ f. f.den) nat_eq) };

    ghost laws = { Prim.search (comparing, rules) };

    fn eq(&self, other: &Frac) -> bool {
        self.numerator == other.numerator && self.denominator == other.denominator
    }
}

impl Eq for Frac {
    ghost laws = { Prim.search (comparing, rules) };
}

impl Hash for Frac {
    ghost hash_input = { λ f. fed.i64 f.num ++ fed.u64 f.den };

    ghost respects_eq = { Prim.search (hashing, rules) };

    fn hash<H: Hasher>(&self, state: &mut H) {
        self.numerator.hash(state);
        self.denominator.hash(state);
    }
}

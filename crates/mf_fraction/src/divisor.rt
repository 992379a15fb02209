ghost use Rattle.mf_fraction.specs.Gcd.{gcd};
ghost use Rattle.std.specs.Prelude.{◌≡◌};

// The greatest common divisor, by Euclid's algorithm.
pub(crate) fn divisor(a: u128, b: u128) -> u128
    ensures { result ≡ gcd a b }
{
    let mut x = a;
    let mut y = b;
    while y > u128::from(u64::MAX) {
        let rest = x % y;
        x = y;
        y = rest;
    }
    if y == 0 {
        return x;
    }
    let rest = x % y;
    u128::from(short_divisor(y as u64, rest as u64))
}

// The same on 64 bits, where a division takes less time.
fn short_divisor(a: u64, b: u64) -> u64
    ensures { result ≡ gcd a b }
{
    let mut x = a;
    let mut y = b;
    while y != 0 {
        let rest = x % y;
        x = y;
        y = rest;
    }
    x
}

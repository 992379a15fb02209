ghost use Rattle.std.specs.Prelude.{◌≡◌};
ghost use Rattle.mf_types.specs.StartValues as spec;

use mf_fraction::{before_point, behind_point, has_minus, without_minus};

/// Whether two decimal words of any length write the same number.
pub(crate) fn is_same_number(one: &[u8], other: &[u8]) -> bool
    ensures { result ≡ spec.same_number one.now other.now }
{
    is_negative(one) == is_negative(other)
        && whole_digits(one) == whole_digits(other)
        && part_digits(one) == part_digits(other)
}

// A minus in front of 0 says nothing.
fn is_negative(word: &[u8]) -> bool
    ensures { result ≡ spec.is_negative word.now }
{
    has_minus(word) && !(is_empty(whole_digits(word)) && is_empty(part_digits(word)))
}

fn is_empty(digits: &[u8]) -> bool
    ensures { result ≡ spec.is_empty digits.now }
{
    match digits {
        [] => true,
        [_, ..] => false,
    }
}

// The digits before the point, without zeros in front.
fn whole_digits(word: &[u8]) -> &[u8]
    ensures { result.now ≡ spec.whole_digits word.now }
{
    without_zeros(before_point(without_minus(word)))
}

// The digits behind the point, without zeros at the end.
fn part_digits(word: &[u8]) -> &[u8]
    ensures { result.now ≡ spec.part_digits word.now }
{
    without_end_zeros(behind_point(without_minus(word)))
}

fn without_zeros(digits: &[u8]) -> &[u8]
    ensures { result.now ≡ spec.without_zeros digits.now }
{
    let mut left = digits;
    while let [first, others @ ..] = left {
        if *first != b'0' {
            return left;
        }
        left = others;
    }
    left
}

fn without_end_zeros(digits: &[u8]) -> &[u8]
    ensures { result.now ≡ spec.without_end_zeros digits.now }
{
    let mut left = digits;
    while let [others @ .., last] = left {
        if *last != b'0' {
            return left;
        }
        left = others;
    }
    left
}

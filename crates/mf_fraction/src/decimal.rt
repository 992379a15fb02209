ghost use Rattle.mf_fraction.specs.Decimal.{is_digits, is_number, is_unsigned_number, places, digits_value, read_parts, read_unsigned, read_of};
ghost use Rattle.mf_fraction.specs.Within.{within, continued};
ghost use Rattle.std.specs.Char.{is_ascii_digit};
ghost use Rattle.std.specs.List.{list_all};
ghost use Rattle.std.specs.Prelude.{◌≡◌, ◌≤◌, ◌++◌};

use crate::arithmetic::turned;
use crate::lowest::lowest;
use crate::word::{before_point, behind_point, has_minus, without_minus};
use crate::{Frac, NumberFault, Wide};

// 2^62 * 10^18: a greater number over at most 10^18 does not fit.
const GREATEST: u128 = 4_611_686_018_427_387_904_000_000_000_000_000_000;

// The most digits behind the point, not counting zeros at the end.
const MOST_PLACES: usize = 18;

/// The exact value of a decimal word: an optional `-`, digits, and optionally `.` and digits. Any
/// other word is `NotANumber`. Else `Wide` comes exactly where more than 18 digits stand behind the
/// point once the zeros at the end are dropped, or the value does not fit.
#[tactic(auto, unfolding(crate::specs::Decimal::read_of))]
pub fn read_decimal(word: &[u8]) -> Result<Frac, NumberFault>
    ensures { result ≡ read_of word.now }
{
    read_digits(has_minus(word), without_minus(word))
}

/// Whether the word is an optional `-`, digits, and optionally `.` and digits.
pub fn is_number(word: &[u8]) -> bool
    ensures { result ≡ is_number word.now }
{
    is_unsigned_number(without_minus(word))
}

// The exact value of a word without a sign, negated where wanted.
fn read_digits(negative: bool, digits: &[u8]) -> Result<Frac, NumberFault>
    ensures { result ≡ read_unsigned negative digits.now }
{
    if !is_unsigned_number(digits) {
        return Err(NumberFault::NotANumber);
    }
    fraction(negative, before_point(digits), behind_point(digits))
}

// Digits alone, or digits on both sides of the point.
fn is_unsigned_number(digits: &[u8]) -> bool
    ensures { result ≡ is_unsigned_number digits.now }
{
    is_digits(digits) || is_digits(before_point(digits)) && is_digits(behind_point(digits))
}

// One digit or more, and nothing else.
fn is_digits(bytes: &[u8]) -> bool
    ensures { result ≡ is_digits bytes.now }
{
    !bytes.is_empty() && all_digits(bytes)
}

fn all_digits(bytes: &[u8]) -> bool
    ensures { result ≡ list_all is_ascii_digit bytes.now }
{
    bytes.iter().all(|byte| byte.is_ascii_digit())
}

// The fraction with these digits before and behind the point.
fn fraction(negative: bool, front: &[u8], back: &[u8]) -> Result<Frac, NumberFault>
    ensures { result ≡ read_parts negative front.now back.now }
{
    let count = places(back);
    if count > MOST_PLACES {
        return Err(NumberFault::Wide);
    }
    let Some(size) = size(front, &back[..count]) else {
        return Err(NumberFault::Wide);
    };
    match lowest(turned(negative, size as i128), 10u128.pow(count as u32)) {
        Ok(value) => Ok(value),
        Err(Wide) => Err(NumberFault::Wide),
    }
}

// How many digits are left once the zeros at the end are dropped.
fn places(digits: &[u8]) -> usize
    ensures { result ≡ places digits.now }
{
    let mut count = 0;
    for (i, digit) in digits.iter().enumerate() {
        if *digit != b'0' {
            count = i + 1;
        }
    }
    count
}

// The number that the digits write, front first, where it is at most the greatest.
fn size(front: &[u8], back: &[u8]) -> Option<u128>
    ensures { result ≡ within (digits_value (front.now ++ back.now)) }
{
    let start = read_on(0, front)?;
    read_on(start, back)
}

// The number that the digits write behind those of the start.
fn read_on(start: u128, digits: &[u8]) -> Option<u128>
    requires { start ≤ GREATEST }
    ensures { result ≡ within (continued start digits.now) }
{
    let mut size = start;
    for digit in digits {
        size = size * 10 + u128::from(digit.saturating_sub(b'0'));
        if size > GREATEST {
            return None;
        }
    }
    Some(size)
}

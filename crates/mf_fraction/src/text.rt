ghost use Rattle.mf_fraction.specs.Text.{text_of};
ghost use Rattle.std.specs.Fmt.{signed_decimal};
ghost use Rattle.std.specs.Prelude.{◌≡◌, ◌∷◌, ◌++◌, IfOk, decimal, is_ok, if◌then◌else◌, string_bytes};

use crate::{Frac, Memory};
use std::alloc::{AllocError, Global};

/// Appends the fraction in decimal digits: `n`, or `n/d` where the denominator is not 1. Without
/// memory nothing is appended.
pub fn write(alloc: Global, a: Frac, out: &mut Vec<u8>) -> Result<(), Memory>
    ensures { out.new.items ≡ (if is_ok result then out.old.items ++ text_of a else out.old.items) }
{
    let text = text(alloc, a)?;
    out.extend_from_slice(text.as_bytes())?;
    Ok(())
}

fn text(alloc: Global, a: Frac) -> Result<String, AllocError>
    ensures { IfOk result (λ t. string_bytes t ≡ text_of a) }
{
    if a.denominator == 1 {
        whole_text(alloc, a.numerator)
    } else {
        ratio_text(alloc, a.numerator, a.denominator)
    }
}

fn whole_text(alloc: Global, n: i64) -> Result<String, AllocError>
    ensures { IfOk result (λ t. string_bytes t ≡ signed_decimal n) }
{
    format!(in alloc; "{n}")
}

fn ratio_text(alloc: Global, n: i64, d: u64) -> Result<String, AllocError>
    ensures { IfOk result (λ t. string_bytes t ≡ signed_decimal n ++ 47 ∷ decimal d) }
{
    format!(in alloc; "{n}/{d}")
}

impl From<AllocError> for Memory {
    fn from(_error: AllocError) -> Memory {
        Memory
    }
}

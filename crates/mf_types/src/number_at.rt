ghost use Rattle.std.specs.Prelude.{◌≡◌, slice_index_or};

/// A list's number at a place, or 0 behind its end.
pub(crate) fn number_at(numbers: &[usize], at: usize) -> usize
    ensures { result ≡ slice_index_or numbers.now at 0 }
{
    match numbers.get(at) {
        Some(number) => *number,
        None => 0,
    }
}

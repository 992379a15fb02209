ghost use Rattle.std.specs.Prelude.{◌≡◌};
ghost use Rattle.mf_types.specs.Names as spec;

use mf_model::{Typed, Word};

/// Whether an item of `:types` is `object` under `object`.
pub(crate) fn says_nothing(item: &Typed) -> bool
    ensures { result ≡ spec.says_nothing item.now }
{
    item.word.text.as_slice() == b"object".as_slice() && names_object(item.types.as_slice())
}

fn names_object(words: &[Word]) -> bool
    ensures { result ≡ spec.names_object words.now }
{
    match words {
        [] => true,
        [first, ..] => first.text.as_slice() == b"object".as_slice(),
    }
}

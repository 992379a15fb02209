ghost use Rattle.std.specs.Prelude.{◌≡◌, ℕ, length, map, slice_index_or};
ghost use Rattle.mf_model.specs.Objects.{ancestors, member};

use crate::TypeName;

/// A row of a table of types: it names the type above its own by number.
pub trait HasParent {
    /// The number of the type above.
    ghost parent_number: { Self → ℕ };

    fn parent(&self) -> usize
        ensures { result ≡ parent_number self.now };
}

impl HasParent for TypeName {
    ghost parent_number = { λ row. row.parent };

    fn parent(&self) -> usize {
        usize::from(self.parent)
    }
}

/// A row that is nothing but the number of the parent.
impl HasParent for usize {
    ghost parent_number = { λ row. row };

    fn parent(&self) -> usize {
        *self
    }
}

/// Whether the type `from` is the wanted one, or descends from it.
///
/// A number outside the table has the parent 0. The way up ends at type 0, and at the latest after
/// as many types as the table has.
pub fn descends<Row: HasParent>(types: &[Row], from: usize, wanted: usize) -> bool
    ensures { result ≡ member wanted (ancestors (map Row.parent_number types.now) (length types.now) from) }
{
    let mut current = from;
    for _step in 0..types.len() {
        if current == wanted {
            return true;
        }
        if current == 0 {
            return false;
        }
        current = parent_of(types, current);
    }
    false
}

fn parent_of<Row: HasParent>(types: &[Row], number: usize) -> usize
    ensures { result ≡ slice_index_or (map Row.parent_number types.now) number 0 }
{
    match types.get(number) {
        Some(row) => row.parent(),
        None => 0,
    }
}

ghost use Rattle.mf_ground.specs.Kinds.{kinds_of_object};
ghost use Rattle.mf_model.specs.Objects.{meets, member};
ghost use Rattle.std.specs.Prelude.{◌≡◌};

use mf_model::{Object, TypedTask, descends};

/// Whether the object has one of the types: a declared one of its own is it, or descends from it.
pub(crate) fn has_some_type(task: &TypedTask, object: &Object, types: &[u16]) -> bool
    ensures { result ≡ meets types.now (kinds_of_object task.now object.now) }
{
    for wanted in types {
        if has_type(task, object, *wanted) {
            return true;
        }
    }
    false
}

// Whether one of the object's declared types is the wanted one, or descends from it.
fn has_type(task: &TypedTask, object: &Object, wanted: u16) -> bool
    ensures { result ≡ member wanted (kinds_of_object task.now object.now) }
{
    let types = task.types.as_slice();
    for declared in object.types.as_slice() {
        if descends(types, usize::from(*declared), usize::from(wanted)) {
            return true;
        }
    }
    false
}

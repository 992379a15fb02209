ghost use Rattle.mf_graph.specs.FirstLevels.{atom_level, form_level, levels_for, zero_level};
ghost use Rattle.mf_graph.specs.Wants.{want_shown};
ghost use Rattle.std.specs.Prelude.{◌≡◌, get_or};

use crate::want::Want;
use mf_model::List;

/// The first layer that meets each leaf of a condition, if one does: atoms that are to be true or false, and forms by
/// what is asked of them, by their numbers.
#[derive(Debug, Drop)]
pub struct Levels {
    pub possible: List<Option<u32>>,
    pub possibly_false: List<Option<u32>>,
    pub below: List<Option<u32>>,
    pub at_most: List<Option<u32>>,
    pub zero: List<Option<u32>>,
    pub not_zero: List<Option<u32>>,
    pub at_least: List<Option<u32>>,
    pub above: List<Option<u32>>,
}

impl Levels {
    /// The level of an atom that is to be true, or false. An atom that no row holds is false from the first layer on.
    pub fn of_atom(&self, asked: bool, atom: u32) -> Option<u32>
        ensures { result ≡ atom_level self.now asked atom }
    {
        if asked {
            listed(self.possible.as_slice(), atom, None)
        } else {
            listed(self.possibly_false.as_slice(), atom, Some(0))
        }
    }

    /// The level of a form that is to stand to 0 as it is asked. A form that is not listed is 0.
    pub fn of_form(&self, want: Want, form: u32) -> Option<u32>
        ensures { result ≡ form_level self.now (want_shown want) form }
    {
        listed(self.of_want(want), form, level_of_zero(want))
    }

    // The levels of the forms for what is asked of them.
    fn of_want(&self, want: Want) -> &[Option<u32>]
        ensures { result.now ≡ levels_for self.now (want_shown want) }
    {
        match want {
            Want::Below => self.below.as_slice(),
            Want::AtMost => self.at_most.as_slice(),
            Want::Zero => self.zero.as_slice(),
            Want::NotZero => self.not_zero.as_slice(),
            Want::AtLeast => self.at_least.as_slice(),
            Want::Above => self.above.as_slice(),
        }
    }
}

// The level at this place, or the other one past the end.
fn listed(levels: &[Option<u32>], place: u32, other: Option<u32>) -> Option<u32>
    ensures { result ≡ get_or levels.now place other }
{
    match levels.get(place as usize) {
        Some(level) => *level,
        None => other,
    }
}

// The level of the number 0.
fn level_of_zero(want: Want) -> Option<u32>
    ensures { result ≡ zero_level (want_shown want) }
{
    match want {
        Want::Below => None,
        Want::AtMost => Some(0),
        Want::Zero => Some(0),
        Want::NotZero => None,
        Want::AtLeast => Some(0),
        Want::Above => None,
    }
}

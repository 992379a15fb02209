ghost use Rattle.mf_task.specs.CaseRows.{row_count};
ghost use Rattle.std.specs.Prelude.{◌≡◌};

use crate::Value;
use mf_model::List;
use mf_store::Row;

/// An entry of a successor list: the number of the instance, the row of the next state with its value, and whether the
/// instance is helpful in the parent.
#[derive(Debug, Drop)]
pub struct Child {
    pub instance: u32,
    pub row: Row,
    pub value: Value,
    pub helpful: bool,
}

/// What expanding a state gives: its successor list, or the least applicable instance that leads out of the width.
#[derive(Debug, Drop)]
pub enum Grown {
    Made { children: List<Child> },
    Wide { instance: u32 },
}

/// An entry of a successor list whose value is not known yet.
#[derive(Debug, Drop)]
pub struct Offspring {
    pub instance: u32,
    pub row: Row,
    pub helpful: bool,
}

/// A successor list without values, or the least applicable instance that leads out of the width.
#[derive(Debug, Drop)]
pub enum Listed {
    List { list: List<Offspring> },
    Wide { instance: u32 },
}

impl Listed {
    /// How many rows there are: none for a way out of the width.
    pub fn len(&self) -> usize
        ensures { result ≡ row_count self.now }
    {
        match self {
            Listed::List { list } => list.len(),
            Listed::Wide { .. } => 0,
        }
    }
}

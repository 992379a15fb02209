use mf_model::{Instance, List, Op, Relation};
use sqlite_items::{Boxed, Items};

/// A condition without variables, over numbered atoms and forms. A comparison is of a form with 0.
#[derive(Debug, Drop)]
pub enum GroundCond {
    /// It always holds, or always fails.
    Fact { holds: bool },
    /// A comparison with an undefined side: it neither holds nor fails.
    Neither,
    Atom { atom: u32 },
    Compare { relation: Relation, form: u32 },
    Not { part: Boxed<GroundCond> },
    And { parts: Items<GroundCond> },
    Or { parts: Items<GroundCond> },
}

/// One primitive effect: an atom added or deleted, or a function term changed by the value of a form, which there is
/// none of where the right side is undefined in every state. Of an effect on a cost function only the right side is
/// kept, and of a `when` without effects nothing but its condition.
#[derive(Debug, Drop)]
pub enum GroundChange {
    Add {
        atom: u32,
    },
    Delete {
        atom: u32,
    },
    Number {
        op: Op,
        term: u32,
        value: Option<u32>,
    },
    Cost {
        value: Option<u32>,
    },
    Nothing,
}

/// A primitive effect with the condition under which it fires.
#[derive(Debug, Drop)]
pub struct GroundEffect {
    pub condition: GroundCond,
    pub change: GroundChange,
}

/// A live instance with its precondition and its primitive effects, in the order of the text.
#[derive(Debug, Drop)]
pub struct GroundAction {
    pub instance: Instance,
    pub condition: GroundCond,
    pub effects: List<GroundEffect>,
}

const _: () = prove!(size_of::<GroundCond>() == 32);

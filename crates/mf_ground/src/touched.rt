ghost use Rattle.mf_ground.specs.Statics.{is_untouched, touched_by, touched_in, with_numbers};
ghost use Rattle.std.specs.Prelude.{◌≡◌, [], ◌∷◌, map, IfOk, OnOk};
ghost use Rattle.std.specs.List.{flat_map};

use indexmap::IndexSet;
use mf_model::{Action, Effect};
use std::alloc::{AllocError, Global};
use std::marker::Model;

/// The predicates that some action adds or deletes: all others are static.
#[derive(Drop)]
pub(crate) struct Touched {
    predicates: IndexSet<u16>,
}

impl Model for Touched {
    ghost use Rattle.std.specs.Prelude.{List, ℕ};

    ghost Value = { List ℕ };

    ghost view = { λ touched. touched.predicates.keys };
}

impl Touched {
    pub(crate) fn is_static(&self, predicate: u16) -> bool
        ensures { result ≡ is_untouched self.now predicate }
    {
        !self.predicates.contains(&predicate)
    }

    fn add(&mut self, predicate: u16) -> Result<(), AllocError>
        ensures { OnOk result (self.new ≡ with_numbers self.old (predicate ∷ [])) }
    {
        self.predicates.insert(predicate)?;
        Ok(())
    }
}

pub(crate) fn touched_predicates(alloc: Global, actions: &[Action]) -> Result<Touched, AllocError>
    ensures { IfOk result (λ touched. touched ≡ with_numbers [] (touched_in actions.now)) }
{
    let mut touched = Touched {
        predicates: IndexSet::new(alloc),
    };
    for action in actions {
        add_touched(&mut touched, &action.effect)?;
    }
    Ok(touched)
}

#[cycle(add_touched)]
fn add_touched(touched: &mut Touched, effect: &Effect) -> Result<(), AllocError>
    ensures { OnOk result (touched.new ≡ with_numbers touched.old (touched_by effect.now)) }
{
    match effect {
        Effect::Add { predicate, .. } => touched.add(*predicate),
        Effect::Delete { predicate, .. } => touched.add(*predicate),
        Effect::Change { .. } => Ok(()),
        Effect::Group { parts } => add_touched_parts(touched, parts.as_slice()),
        Effect::Each { part, .. } => add_touched(touched, part.get()),
        Effect::When { part, .. } => add_touched(touched, part.get()),
    }
}

#[cycle(add_touched)]
fn add_touched_parts(touched: &mut Touched, parts: &[Effect]) -> Result<(), AllocError>
    ensures { OnOk result
        (touched.new ≡ with_numbers touched.old (flat_map (λ part. part) (map touched_by parts.now))) }
{
    for part in parts {
        add_touched(touched, part)?;
    }
    Ok(())
}

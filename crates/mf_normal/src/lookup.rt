ghost use Rattle.mf_model.specs.Objects.{member};
ghost use Rattle.mf_model.specs.States.{is_cell, value_at};
ghost use Rattle.mf_model.specs.Views.{objects_of};
ghost use Rattle.mf_task.specs.Grounding.{is_same_cell, term_number};
ghost use Rattle.std.specs.Prelude.{◌≡◌, ◌<◌, ◌^◌, length, not};

use crate::binding::stand_for;
use indexmap::IndexSet;
use mf_fraction::Frac;
use mf_model::{Cell, List, Term, Valued};
use std::marker::Model;

/// The functions that some action has an effect on: all others are constant.
#[derive(Drop)]
pub(crate) struct Changed {
    functions: IndexSet<u16>,
}

impl Model for Changed {
    ghost use Rattle.std.specs.Prelude.{List, ℕ};

    ghost Value = { List ℕ };

    ghost view = { λ changed. changed.functions.keys };
}

impl Changed {
    pub(crate) fn is_constant(&self, function: u16) -> bool
        ensures { result ≡ not (member function self.now) }
    {
        !self.functions.contains(&function)
    }
}

/// What forms are made of: the functions that change, the values of the start, and the terms that have numbers.
#[derive(Drop)]
pub(crate) struct Lookup {
    pub(crate) changed: Changed,
    pub(crate) values: List<Valued>,
    pub(crate) terms: List<Cell>,
}

/// The value at the start of the function at these terms, if it is defined.
pub(crate) fn start_value(
    values: &[Valued],
    function: u16,
    terms: &[Term],
    binding: &[u16],
) -> Option<Frac>
    ensures { result ≡ value_at values.now function (objects_of binding.now terms.now) }
{
    for valued in values {
        if is_value_of(valued, function, terms, binding) {
            return Some(valued.value);
        }
    }
    None
}

// Whether this is the value of the function at these terms.
fn is_value_of(valued: &Valued, function: u16, terms: &[Term], binding: &[u16]) -> bool
    ensures { result ≡ is_cell function (objects_of binding.now terms.now) valued.now }
{
    function == valued.cell.function && stand_for(binding, terms, valued.cell.objects.as_slice())
}

/// The number of the function at these terms, or the number of all terms where it is none of them.
pub(crate) fn number_of_term(cells: &[Cell], function: u16, terms: &[Term], binding: &[u16]) -> u32
    requires { length cells.now < 2 ^ 32 }
    ensures { result ≡ term_number cells.now function (objects_of binding.now terms.now) }
{
    for (number, cell) in cells.iter().enumerate() {
        if is_term(cell, function, terms, binding) {
            return number as u32;
        }
    }
    cells.len() as u32
}

// Whether this is the function at these terms.
fn is_term(cell: &Cell, function: u16, terms: &[Term], binding: &[u16]) -> bool
    ensures { result ≡ is_same_cell function (objects_of binding.now terms.now) cell.now }
{
    function == cell.function && stand_for(binding, terms, cell.objects.as_slice())
}

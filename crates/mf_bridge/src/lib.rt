//! The laws that join the two meanings of a task, that of its text and that of its packed task: each is a public function
//! with an empty body, and holds of every resolved task.
#![tactic(auto)]

mod actions;
mod changes;
mod conditions;
mod coverage;
mod effects;
mod forms;
mod lowest_forms;
mod next_rows;
mod rows;
mod successors;
mod unlisted_atoms;

pub use actions::actions_are_applicable_alike;
pub use changes::{changes_are_listed, changes_with_the_same_deeds_are_the_same};
pub use conditions::{
    actions_are_live_instances, conditions_are_ground_conditions, forms_are_listed,
    goals_are_ground_goals, preconditions_are_ground_conditions,
};
pub use coverage::{atoms_and_terms_are_sorted, atoms_cover, terms_cover};
pub use effects::{actions_fire_alike, effects_fire_alike};
pub use forms::{comparisons_are_signs_of_differences, forms_have_the_values_of_expressions};
pub use lowest_forms::forms_are_in_lowest_terms;
pub use next_rows::next_rows_stand_for_next_states;
pub use rows::{
    rows_are_told_apart_by_states, rows_show_their_states, rows_stand_for_search_states,
    starts_are_start_rows,
};
pub use successors::{
    start_rows_are_roots, successors_are_ground_successors, values_are_ground_values,
};
pub use unlisted_atoms::rows_hide_unlisted_atoms;

#[cfg(test)]
mod tests;

//! What is reached, what holds of it, and what is not reached where the answer is no plan.
ghost use Rattle.std.specs.Prelude.{◌<◌, ℕ, List, length};
ghost use Rattle.mf_search.specs.declared.status.Status.TheVariants.{NoPlan};
ghost use Rattle.mf_search.specs.Space.{Space, Leads};
ghost use Rattle.mf_search.specs.World.{Opened, WasOpened, at, Legal, world};
ghost use Rattle.mf_search.specs.Answers.{Answers, Walk, IsClosed, plan_to};
ghost use Rattle.mf_search.specs.Reaching.{HasValue, GoesOn, IsReached, KeptByOpening, KeptByLists, LeadsToGoalBy, Covers};

use crate::entry::Entry;

/// A fact about states, which a law speaks of. It has no calls.
pub trait Fact<S> {
    ghost holds: { S → Type 0 };
}

/// Steps by instances from state to state, to goals, which a law speaks of: any relation. It has no calls.
pub trait Moves<S> {
    ghost steps: { S → ℕ → S → Type 0 };

    ghost goal: { S → Type 0 };
}

/// In every legal history the trace of an opened state leads to it from the start, and the state is reached
/// through states from which the search goes on. The start is reached so, and from a reached state from which
/// the search goes on each state in its successor list; walks lead to all these.
pub fn opened_states_are_reached<S>()
    ensures trace { (sp : Space S) (budget workers : ℕ) (entries : List Entry) (i : ℕ) → Legal sp budget workers entries → i < length (world sp entries).opened → Walk sp sp.start (plan_to sp (world sp entries).opened i) (at sp (world sp entries).opened i).state }
    ensures opened { (sp : Space S) (budget workers : ℕ) (entries : List Entry) (x : S) → Legal sp budget workers entries → WasOpened sp (world sp entries).opened x → IsReached sp x }
    ensures start { (sp : Space S) → IsReached sp sp.start }
    ensures onward { (sp : Space S) (x y : S) → IsReached sp x → GoesOn sp x → Leads sp x y → IsReached sp y }
    ensures walk { (sp : Space S) (x : S) → IsReached sp x → (instances : List ℕ) × Walk sp sp.start instances x }
{}

/// What holds of the start and is kept by successor lists: where it is kept for children of finite value, it
/// holds of each opened state, and of each reached state of finite value; where it is kept for every child, it
/// holds of each reached state.
pub fn kept_facts_hold<S, F: Fact<S>>()
    ensures opened { (sp : Space S) (budget workers : ℕ) (entries : List Entry) (x : S) → Legal sp budget workers entries → F.holds sp.start → KeptByOpening sp F.holds → WasOpened sp (world sp entries).opened x → F.holds x }
    ensures finite { (sp : Space S) (x : S) → F.holds sp.start → KeptByOpening sp F.holds → IsReached sp x → HasValue sp x → F.holds x }
    ensures reached { (sp : Space S) (x : S) → F.holds sp.start → KeptByLists sp F.holds → IsReached sp x → F.holds x }
{}

/// Steps that the space covers lead from the start to no goal where the opened states are closed, and so where
/// the answer of a legal history is no plan. The steps need not be walks: from a state that leads out of the
/// width, or behind one of infinite value, they may lead anywhere.
pub fn no_steps_lead_to_a_goal<S, M: Moves<S>>()
    ensures closed { (sp : Space S) (os : List (Opened S)) → IsClosed sp os → Covers sp M.steps M.goal → LeadsToGoalBy M.steps M.goal sp.start → ⊥ }
    ensures no_plan { (sp : Space S) (budget workers : ℕ) (entries : List Entry) → Legal sp budget workers entries → Answers budget (world sp entries) NoPlan → Covers sp M.steps M.goal → LeadsToGoalBy M.steps M.goal sp.start → ⊥ }
{}

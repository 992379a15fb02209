//! The laws of the search: what holds of every legal history, over any space of states `S`.
ghost use Rattle.std.specs.Prelude.{◌≡◌, ◌≤◌, ℕ, Bool, List, Contains};
ghost use Rattle.mf_search.specs.declared.status.Status.TheVariants.{Plan, NoPlan};
ghost use Rattle.mf_search.specs.Space.{Space};
ghost use Rattle.mf_search.specs.World.{World, AllDifferent, at, opened_states, Legal, world, takes};
ghost use Rattle.mf_search.specs.Greedy.{Greedy, IsGreedyRunTo};
ghost use Rattle.mf_search.specs.Rebuilt.{states_of, rebuilt_run};
ghost use Rattle.mf_search.specs.Answers.{Answers, Ended, IsStatus, IsPlanFrom, LeadsToGoal, InfiniteIsDead, IsClosed, plan_to};

use crate::entry::Entry;
use crate::status::Status;

/// In every legal history no state is taken twice, and the opened states are pairwise different.
pub fn taken_once<S>()
    ensures taken { (sp : Space S) (budget workers : ℕ) (entries : List Entry) → Legal sp budget workers entries → AllDifferent (takes entries) }
    ensures opened { (sp : Space S) (budget workers : ℕ) (entries : List Entry) → Legal sp budget workers entries → AllDifferent (opened_states (world sp entries)) }
{}

/// For each take of a legal history, with any number of workers that finish in any order, the rebuilt run
/// is a greedy run that ends with the taken state.
pub fn taken_by_a_greedy_run<S>()
    ensures { (sp : Space S) (budget workers : ℕ) (entries : List Entry) (i : ℕ) → Legal sp budget workers entries → Contains (takes entries) i → IsGreedyRunTo sp (rebuilt_run sp entries i) (at sp (world sp entries).opened i).state }
{}

/// The answers of legal histories are right, and a history has one answer and one status at most: the trace of a plan leads
/// from the start to a goal; no plan means that nothing does, where nothing leads to a goal from a reached state
/// of infinite value. In any case no plan means that the opened states are closed.
pub fn answers_are_right<S>()
    ensures plan { (sp : Space S) (budget workers : ℕ) (entries : List Entry) (i : ℕ) → Legal sp budget workers entries → Answers budget (world sp entries) (Plan i) → IsPlanFrom sp sp.start (plan_to sp (world sp entries).opened i) }
    ensures no_plan { (sp : Space S) (budget workers : ℕ) (entries : List Entry) → Legal sp budget workers entries → Answers budget (world sp entries) NoPlan → InfiniteIsDead sp → LeadsToGoal sp sp.start → ⊥ }
    ensures closed { (sp : Space S) (budget workers : ℕ) (entries : List Entry) → Legal sp budget workers entries → Answers budget (world sp entries) NoPlan → IsClosed sp (world sp entries).opened }
    ensures one_answer { (budget : ℕ) (w : World S) (this that : Status) → Answers budget w this → Answers budget w that → this ≡ that }
    ensures one_status { (budget : ℕ) (w : World S) (halted : Bool) (this that : Status) → IsStatus budget w halted this → IsStatus budget w halted that → this ≡ that }
{}

/// With one worker the taken states, in order, are themselves a greedy run, and there is one ended legal
/// history at most.
pub fn one_worker<S>()
    ensures greedy { (sp : Space S) (budget : ℕ) (entries : List Entry) → Legal sp budget 1 entries → Greedy sp (states_of sp (world sp entries).opened (takes entries)) }
    ensures only { (sp : Space S) (budget : ℕ) (these those : List Entry) → Legal sp budget 1 these → Legal sp budget 1 those → Ended budget (world sp these) → Ended budget (world sp those) → these ≡ those }
{}

/// A history that is legal for few workers is legal for more.
pub fn more_workers<S>()
    ensures { (sp : Space S) (budget few more : ℕ) (entries : List Entry) → few ≤ more → Legal sp budget few entries → Legal sp budget more entries }
{}

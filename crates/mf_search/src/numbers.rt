//! What the numbers in the world of a legal history stand for.
ghost use Rattle.std.specs.Prelude.{◌≡◌, ◌≢◌, ◌≤◌, ◌<◌, ℕ, Bool, List, Contains, Some, None, length};
ghost use Rattle.mf_search.specs.declared.maker.Maker.TheVariants.{Start, Step};
ghost use Rattle.mf_search.specs.declared.status.Status.TheVariants.{Budget};
ghost use Rattle.mf_search.specs.Space.{Space};
ghost use Rattle.mf_search.specs.World.{Going, IsOpen, at, Legal, world, takes};
ghost use Rattle.mf_search.specs.Answers.{AllIdle, Answers};

use crate::entry::Entry;

/// In every legal history the taken states are those of the entries, no more than the budget allows, and
/// were opened, and none is a goal while the search goes on. Where a state is open more were opened than taken,
/// and where the answer is the budget exactly so many were taken. What is in expansion was taken, by one of the
/// workers, and no other has it; each opened state has its value, number 0 is the start, and a parent has a
/// lower number than its child.
pub fn numbers_are_sound<S>()
    ensures taken { (sp : Space S) (entries : List Entry) → (world sp entries).taken ≡ takes entries }
    ensures budget { (sp : Space S) (budget workers : ℕ) (entries : List Entry) → Legal sp budget workers entries → length (takes entries) ≤ budget }
    ensures more_opened { (sp : Space S) (budget workers : ℕ) (entries : List Entry) (i : ℕ) → Legal sp budget workers entries → IsOpen (world sp entries) i → length (takes entries) < length (world sp entries).opened }
    ensures spent { (sp : Space S) (budget workers : ℕ) (entries : List Entry) → Legal sp budget workers entries → Answers budget (world sp entries) Budget → (length (takes entries) ≡ budget) × (budget < length (world sp entries).opened) }
    ensures in_range { (sp : Space S) (budget workers : ℕ) (entries : List Entry) (i : ℕ) → Legal sp budget workers entries → Contains (takes entries) i → i < length (world sp entries).opened }
    ensures no_goal { (sp : Space S) (budget workers : ℕ) (entries : List Entry) (i : ℕ) → Legal sp budget workers entries → (world sp entries).ending ≡ Going → Contains (takes entries) i → (at sp (world sp entries).opened i).value ≢ 0 }
    ensures busy { (sp : Space S) (budget workers : ℕ) (entries : List Entry) (worker i : ℕ) → Legal sp budget workers entries → (world sp entries).busy worker ≡ Some i → Contains (takes entries) i × (1 ≤ worker) × (worker ≤ workers) }
    ensures alone { (sp : Space S) (budget workers : ℕ) (entries : List Entry) (this that i : ℕ) → Legal sp budget workers entries → (world sp entries).busy this ≡ Some i → (world sp entries).busy that ≡ Some i → this ≡ that }
    ensures idle { (sp : Space S) (budget workers : ℕ) (entries : List Entry) → Legal sp budget workers entries → ((worker : ℕ) → 1 ≤ worker → worker ≤ workers → (world sp entries).busy worker ≡ None) → AllIdle (world sp entries) }
    ensures valued { (sp : Space S) (budget workers : ℕ) (entries : List Entry) (i : ℕ) → Legal sp budget workers entries → i < length (world sp entries).opened → sp.value (at sp (world sp entries).opened i).state ≡ Some (at sp (world sp entries).opened i).value }
    ensures start { (sp : Space S) (budget workers : ℕ) (entries : List Entry) → Legal sp budget workers entries → 0 < length (world sp entries).opened → ((at sp (world sp entries).opened 0).state ≡ sp.start) × ((at sp (world sp entries).opened 0).maker ≡ Start) }
    ensures parent { (sp : Space S) (budget workers : ℕ) (entries : List Entry) (i p n : ℕ) (helpful : Bool) → Legal sp budget workers entries → i < length (world sp entries).opened → (at sp (world sp entries).opened i).maker ≡ Step p n helpful → p < i }
{}

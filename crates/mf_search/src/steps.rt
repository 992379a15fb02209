//! Histories, worlds, opened states and rebuilt runs one step at a time.
ghost use Rattle.std.specs.Prelude.{◌≡◌, ◌≢◌, ◌↔◌, ◌<◌, ◌≤◌, ℕ, Bool, List, [], ◌∷◌, ◌++◌, Option, Some, None, length};
ghost use Rattle.mf_search.specs.declared.entry.Entry.TheVariants.{Take};
ghost use Rattle.mf_search.specs.declared.maker.Maker.TheVariants.{Start, Step};
ghost use Rattle.mf_search.specs.Space.{Space, Child};
ghost use Rattle.mf_search.specs.World.{World, Opened, Going, AtGoal, WasOpened, IsOpen, at, open_child, open_all, put, May, next, Legal, world};
ghost use Rattle.mf_search.specs.Rebuilt.{best_below, completed, rebuilt};
ghost use Rattle.mf_search.specs.Answers.{Ended, plan_to};

use crate::entry::Entry;

/// A history that is one entry longer is legal exactly where it was legal and the entry may come after it,
/// and its world is the next one, in which the states opened earlier have their numbers, as in every later one.
/// A front of a legal history is legal. After an ended one no entry may come.
pub fn one_entry_more<S>()
    ensures legal { (sp : Space S) (budget workers : ℕ) (entries : List Entry) (entry : Entry) → Legal sp budget workers (entries ++ entry ∷ []) ↔ (Legal sp budget workers entries × May sp budget workers (world sp entries) entry) }
    ensures world { (sp : Space S) (entries : List Entry) (entry : Entry) → world sp (entries ++ entry ∷ []) ≡ next sp (world sp entries) entry }
    ensures longer { (sp : Space S) (front rest : List Entry) → length (world sp front).opened ≤ length (world sp (front ++ rest)).opened }
    ensures earlier { (sp : Space S) (front rest : List Entry) (i : ℕ) → i < length (world sp front).opened → at sp (world sp (front ++ rest)).opened i ≡ at sp (world sp front).opened i }
    ensures front { (sp : Space S) (budget workers : ℕ) (front rest : List Entry) → Legal sp budget workers (front ++ rest) → Legal sp budget workers front }
    ensures ended { (sp : Space S) (budget workers : ℕ) (w : World S) (entry : Entry) → Ended budget w → May sp budget workers w entry → ⊥ }
{}

/// The world after a take, which opens nothing, and what a worker has in expansion after an entry of its own or
/// of another.
pub fn one_take_more<S>()
    ensures goal { (sp : Space S) (w : World S) (worker i : ℕ) → (at sp w.opened i).value ≡ 0 → next sp w (Take worker i) ≡ record w { taken = w.taken ++ i ∷ []; ending = AtGoal i } }
    ensures other { (sp : Space S) (w : World S) (worker i : ℕ) → (at sp w.opened i).value ≢ 0 → next sp w (Take worker i) ≡ record w { taken = w.taken ++ i ∷ []; busy = put w.busy worker (Some i) } }
    ensures opened { (sp : Space S) (w : World S) (worker i : ℕ) → (next sp w (Take worker i)).opened ≡ w.opened }
    ensures taken { (sp : Space S) (w : World S) (worker i : ℕ) → (next sp w (Take worker i)).taken ≡ w.taken ++ i ∷ [] }
    ensures own { (busy : ℕ → Option ℕ) (worker : ℕ) (held : Option ℕ) → put busy worker held worker ≡ held }
    ensures others { (busy : ℕ → Option ℕ) (worker : ℕ) (held : Option ℕ) (v : ℕ) → v ≢ worker → put busy worker held v ≡ busy v }
{}

/// Opening a successor list one child at a time: a child that was opened before or is of infinite value is
/// passed over, and another one is pushed. States are opened after those that were opened earlier, which keep
/// their numbers, states, values and makers.
pub fn one_child_more<S>()
    ensures child { (sp : Space S) (p : ℕ) (cs : List (Child S)) (c : Child S) (os : List (Opened S)) → open_all sp p (cs ++ c ∷ []) os ≡ open_child sp p c (open_all sp p cs os) }
    ensures known { (sp : Space S) (p : ℕ) (c : Child S) (os : List (Opened S)) → WasOpened sp os c.state → open_child sp p c os ≡ os }
    ensures infinite { (sp : Space S) (p : ℕ) (c : Child S) (os : List (Opened S)) → sp.value c.state ≡ None → open_child sp p c os ≡ os }
    ensures new { (sp : Space S) (p : ℕ) (c : Child S) (os : List (Opened S)) (v : ℕ) → (WasOpened sp os c.state → ⊥) → sp.value c.state ≡ Some v → open_child sp p c os ≡ os ++ record { state = c.state; value = v; maker = Step p c.instance c.helpful } ∷ [] }
    ensures after { (sp : Space S) (p : ℕ) (cs : List (Child S)) (os : List (Opened S)) → (more : List (Opened S)) × (open_all sp p cs os ≡ os ++ more) }
    ensures longer { (sp : Space S) (p : ℕ) (cs : List (Child S)) (os : List (Opened S)) → length os ≤ length (open_all sp p cs os) }
    ensures earlier { (sp : Space S) (p : ℕ) (cs : List (Child S)) (os : List (Opened S)) (i : ℕ) → i < length os → at sp (open_all sp p cs os) i ≡ at sp os i }
{}

/// Where the search goes on and a worker has a state in expansion, or a state is open and fewer were taken than
/// the budget allows, the history has no answer.
pub fn running_is_not_ended<S>()
    ensures busy { (budget : ℕ) (w : World S) (worker i : ℕ) → w.ending ≡ Going → w.busy worker ≡ Some i → Ended budget w → ⊥ }
    ensures open_left { (budget : ℕ) (w : World S) (i : ℕ) → w.ending ≡ Going → IsOpen w i → length w.taken < budget → Ended budget w → ⊥ }
{}

/// The rebuilt run of a state begins with that of its parent, goes on with the best candidates one by one,
/// and ends with the state; the trace to it is that of its parent and then the kept instance.
pub fn one_parent_more<S>()
    ensures run { (sp : Space S) (budget workers : ℕ) (entries : List Entry) (i p n : ℕ) (helpful : Bool) → Legal sp budget workers entries → i < length (world sp entries).opened → (at sp (world sp entries).opened i).maker ≡ Step p n helpful → rebuilt sp (world sp entries).opened i ≡ completed sp (world sp entries).opened (at sp (world sp entries).opened i).value (length (world sp entries).opened) (rebuilt sp (world sp entries).opened p) ++ i ∷ [] }
    ensures run_of_start { (sp : Space S) (budget workers : ℕ) (entries : List Entry) (i : ℕ) → Legal sp budget workers entries → i < length (world sp entries).opened → (at sp (world sp entries).opened i).maker ≡ Start → rebuilt sp (world sp entries).opened i ≡ i ∷ [] }
    ensures candidate { (sp : Space S) (os : List (Opened S)) (v : ℕ) (run : List ℕ) (c : ℕ) → best_below sp os run v (length os) ≡ Some c → completed sp os v (length os) run ≡ completed sp os v (length os) (run ++ c ∷ []) }
    ensures no_candidate { (sp : Space S) (os : List (Opened S)) (v : ℕ) (run : List ℕ) → best_below sp os run v (length os) ≡ None → completed sp os v (length os) run ≡ run }
    ensures plan { (sp : Space S) (budget workers : ℕ) (entries : List Entry) (i p n : ℕ) (helpful : Bool) → Legal sp budget workers entries → i < length (world sp entries).opened → (at sp (world sp entries).opened i).maker ≡ Step p n helpful → plan_to sp (world sp entries).opened i ≡ plan_to sp (world sp entries).opened p ++ n ∷ [] }
    ensures plan_of_start { (sp : Space S) (budget workers : ℕ) (entries : List Entry) (i : ℕ) → Legal sp budget workers entries → i < length (world sp entries).opened → (at sp (world sp entries).opened i).maker ≡ Start → plan_to sp (world sp entries).opened i ≡ [] }
{}

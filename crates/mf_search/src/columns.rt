//! Opened states that are kept as columns, one list for each part, and workers that are kept as a list.
ghost use Rattle.std.specs.Prelude.{◌≡◌, ◌↔◌, ◌+◌, ◌-◌, ◌<◌, ◌≤◌, ℕ, Bool, true, false, List, [], ◌∷◌, ◌++◌, Contains, Option, Some, None, length, get_or, set, map};
ghost use Rattle.mf_search.specs.declared.maker.Maker.TheVariants.{Start};
ghost use Rattle.mf_search.specs.Space.{Space};
ghost use Rattle.mf_search.specs.World.{Opened, WasOpened, KeyAtMost, at, put};
ghost use Rattle.mf_search.specs.Columns.{Columns, IsLeastOpen, held_by};

use crate::maker::Maker;

/// What the columns say of a state, and the columns after one more opened state or one more take.
pub fn columns_are_kept<S>()
    ensures state { (sp : Space S) (os : List (Opened S)) (taken : List ℕ) (states : List S) (values : List ℕ) (makers : List Maker) (flags : List Bool) (i : ℕ) (d : S) → Columns os taken states values makers flags → i < length os → (at sp os i).state ≡ get_or states i d }
    ensures value { (sp : Space S) (os : List (Opened S)) (taken : List ℕ) (states : List S) (values : List ℕ) (makers : List Maker) (flags : List Bool) (i d : ℕ) → Columns os taken states values makers flags → i < length os → (at sp os i).value ≡ get_or values i d }
    ensures maker { (sp : Space S) (os : List (Opened S)) (taken : List ℕ) (states : List S) (values : List ℕ) (makers : List Maker) (flags : List Bool) (i : ℕ) (d : Maker) → Columns os taken states values makers flags → i < length os → (at sp os i).maker ≡ get_or makers i d }
    ensures opened { (sp : Space S) (os : List (Opened S)) (taken : List ℕ) (states : List S) (values : List ℕ) (makers : List Maker) (flags : List Bool) (x : S) → Columns os taken states values makers flags → WasOpened sp os x ↔ Contains states x }
    ensures push { (os : List (Opened S)) (taken : List ℕ) (states : List S) (values : List ℕ) (makers : List Maker) (flags : List Bool) (o : Opened S) → (Contains taken (length os) → ⊥) → Columns os taken states values makers flags → Columns (os ++ o ∷ []) taken (states ++ o.state ∷ []) (values ++ o.value ∷ []) (makers ++ o.maker ∷ []) (flags ++ false ∷ []) }
    ensures take { (os : List (Opened S)) (taken : List ℕ) (states : List S) (values : List ℕ) (makers : List Maker) (flags : List Bool) (i : ℕ) → i < length os → Columns os taken states values makers flags → Columns os (taken ++ i ∷ []) states values makers (set flags i true) }
{}

/// A search of the opened states for the open one of least key, one state more: a taken one is passed over,
/// and an open one is the best so far where its key is at most that of the last best.
pub fn least_is_found<S>()
    ensures closed { (sp : Space S) (os : List (Opened S)) (taken : List ℕ) (n : ℕ) (best : Option ℕ) → Contains taken n → IsLeastOpen sp os taken n best → IsLeastOpen sp os taken (n + 1) best }
    ensures first { (sp : Space S) (os : List (Opened S)) (taken : List ℕ) (n : ℕ) → (Contains taken n → ⊥) → IsLeastOpen sp os taken n None → IsLeastOpen sp os taken (n + 1) (Some n) }
    ensures better { (sp : Space S) (os : List (Opened S)) (taken : List ℕ) (n i : ℕ) → (Contains taken n → ⊥) → KeyAtMost (at sp os n) n (at sp os i) i → IsLeastOpen sp os taken n (Some i) → IsLeastOpen sp os taken (n + 1) (Some n) }
    ensures worse { (sp : Space S) (os : List (Opened S)) (taken : List ℕ) (n i : ℕ) → KeyAtMost (at sp os i) i (at sp os n) n → IsLeastOpen sp os taken n (Some i) → IsLeastOpen sp os taken (n + 1) (Some i) }
{}

/// The lists of the opened states' states, values and makers: what they have at a number, past the end too, is
/// that of the opened state; a state was opened exactly where it occurs among the states. One more opened state
/// leaves those before it as they are.
pub fn parts_are_listed<S>()
    ensures state { (sp : Space S) (os : List (Opened S)) (i : ℕ) → get_or (map (λ o. o.state) os) i sp.start ≡ (at sp os i).state }
    ensures value { (sp : Space S) (os : List (Opened S)) (i : ℕ) → get_or (map (λ o. o.value) os) i 0 ≡ (at sp os i).value }
    ensures maker { (sp : Space S) (os : List (Opened S)) (i : ℕ) → get_or (map (λ o. o.maker) os) i Start ≡ (at sp os i).maker }
    ensures opened { (sp : Space S) (os : List (Opened S)) (x : S) → WasOpened sp os x ↔ Contains (map (λ o. o.state) os) x }
    ensures earlier { (sp : Space S) (os : List (Opened S)) (o : Opened S) (i : ℕ) → i < length os → at sp (os ++ o ∷ []) i ≡ at sp os i }
    ensures last { (sp : Space S) (os : List (Opened S)) (o : Opened S) → at sp (os ++ o ∷ []) (length os) ≡ o }
{}

/// What workers have in expansion, kept as a list with worker 1 first: a change of one worker is a change of
/// its place, and where each place is empty nothing is in expansion.
pub fn workers_are_listed()
    ensures put { (busy : ℕ → Option ℕ) (kept : List (Option ℕ)) (worker : ℕ) (held : Option ℕ) (v : ℕ) → 1 ≤ worker → worker ≤ length kept → ((u : ℕ) → busy u ≡ held_by kept u) → put busy worker held v ≡ held_by (set kept (worker - 1) held) v }
    ensures idle { (kept : List (Option ℕ)) (v : ℕ) → ((k : ℕ) → k < length kept → get_or kept k None ≡ None) → held_by kept v ≡ None }
{}

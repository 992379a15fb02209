//! The order of the open states, and lists that hold their keys.
ghost use Rattle.std.specs.Prelude.{◌≡◌, ◌≢◌, ◌⊎◌, ◌↔◌, ◌<◌, ℕ, List, [], ◌∷◌, ◌++◌, Contains, length};
ghost use Rattle.mf_search.specs.Space.{Space};
ghost use Rattle.mf_search.specs.World.{Opened, KeyAtMost, at};
ghost use Rattle.mf_search.specs.Keys.{KeyFields, key_of, FieldsAtMost, OpenIn, HoldsOpen};

/// The keys of the opened states are in a total order, and two states with one key have one number. The order
/// of their fields is the same.
pub fn keys_are_ordered<S>()
    ensures itself { (a : Opened S) (i : ℕ) → KeyAtMost a i a i }
    ensures same { (a b : Opened S) (i j : ℕ) → KeyAtMost a i b j → KeyAtMost b j a i → i ≡ j }
    ensures through { (a b c : Opened S) (i j k : ℕ) → KeyAtMost a i b j → KeyAtMost b j c k → KeyAtMost a i c k }
    ensures either { (a b : Opened S) (i j : ℕ) → KeyAtMost a i b j ⊎ KeyAtMost b j a i }
    ensures fields { (a b : Opened S) (i j : ℕ) → KeyAtMost a i b j ↔ FieldsAtMost (key_of a i) (key_of b j) }
{}

/// A list that holds the keys of the open states, of any type `K` with the fields of a key. A key in it that is
/// at most each other one is that of the state that a take needs; where it is empty nothing is open; a state
/// has one key. It holds the keys after a take where the state's key was taken out, and after one more opened
/// state where its key was put in, at whatever place.
pub fn open_keys_are_held<S, K>()
    ensures least { (sp : Space S) (os : List (Opened S)) (taken : List ℕ) (fields : K → KeyFields) (keys : List K) (key : K) → HoldsOpen sp os taken fields keys → Contains keys key → ((other : K) → Contains keys other → FieldsAtMost (fields key) (fields other)) → OpenIn os taken (fields key).state × ((j : ℕ) → OpenIn os taken j → KeyAtMost (at sp os (fields key).state) (fields key).state (at sp os j) j) }
    ensures none { (sp : Space S) (os : List (Opened S)) (taken : List ℕ) (fields : K → KeyFields) (keys : List K) (j : ℕ) → HoldsOpen sp os taken fields keys → ((key : K) → Contains keys key → ⊥) → OpenIn os taken j → ⊥ }
    ensures once { (sp : Space S) (os : List (Opened S)) (taken : List ℕ) (fields : K → KeyFields) (keys : List K) (this that : K) → HoldsOpen sp os taken fields keys → Contains keys this → Contains keys that → (fields this).state ≡ (fields that).state → fields this ≡ fields that }
    ensures first { (sp : Space S) (fields : K → KeyFields) → HoldsOpen sp [] [] fields [] }
    ensures take { (sp : Space S) (os : List (Opened S)) (taken : List ℕ) (fields : K → KeyFields) (keys news : List K) (i : ℕ) → HoldsOpen sp os taken fields keys → ((key : K) → Contains news key ↔ (Contains keys key × ((fields key).state ≢ i))) → HoldsOpen sp os (taken ++ i ∷ []) fields news }
    ensures push { (sp : Space S) (os : List (Opened S)) (taken : List ℕ) (fields : K → KeyFields) (keys news : List K) (o : Opened S) (new : K) → HoldsOpen sp os taken fields keys → (Contains taken (length os) → ⊥) → fields new ≡ key_of o (length os) → ((key : K) → Contains news key ↔ (Contains keys key ⊎ (key ≡ new))) → HoldsOpen sp (os ++ o ∷ []) taken fields news }
{}

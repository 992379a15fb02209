//! What holds of keys in their order, for whoever keeps an open list.
ghost use Rattle.std.specs.Prelude.{◌≡◌, ◌≢◌, ◌+◌, ◌⊎◌, ◌↔◌, IsTrue, List, length, drop, slice_get, Contains, Some, None};
ghost use Rattle.mf_open.specs.Keys.{IsBelow, IsRising, with_key};

use crate::Key;

/// Whether the first key comes before the second, as their comparison says.
pub fn is_before(a: &Key, b: &Key) -> bool
    ensures { IsTrue result ↔ IsBelow a.now b.now }
{
    a < b
}

/// Of two keys one is below the other or they are the same, and what is below is something else.
pub fn keys_are_ordered()
    ensures apart { (a b : Key) → IsBelow a b → a ≢ b }
    ensures through { (a b c : Key) → IsBelow a b → IsBelow b c → IsBelow a c }
    ensures either { (a b : Key) → (a ≡ b) ⊎ (IsBelow a b ⊎ IsBelow b a) }
{}

/// A key that is entered is there beside those that were, once.
pub fn keys_enter()
    ensures there { (k : Key) (ks : List Key) → Contains (with_key k ks) k }
    ensures kept { (k j : Key) (ks : List Key) → Contains ks j → Contains (with_key k ks) j }
    ensures only { (k j : Key) (ks : List Key) → Contains (with_key k ks) j → (k ≡ j) ⊎ Contains ks j }
    ensures once { (k : Key) (ks : List Key) → length (with_key k ks) ≡ length ks + 1 }
    ensures rising { (k : Key) (ks : List Key) → IsRising ks → (Contains ks k → ⊥) → IsRising (with_key k ks) }
{}

/// The first of the keys is below all others, and where it is taken the others stay.
pub fn least_leaves()
    ensures there { (k : Key) (ks : List Key) → slice_get ks 0 ≡ Some k → Contains ks k }
    ensures least { (k j : Key) (ks : List Key) → IsRising ks → slice_get ks 0 ≡ Some k → Contains ks j → (k ≡ j) ⊎ IsBelow k j }
    ensures gone { (k : Key) (ks : List Key) → IsRising ks → slice_get ks 0 ≡ Some k → Contains (drop 1 ks) k → ⊥ }
    ensures kept { (k j : Key) (ks : List Key) → slice_get ks 0 ≡ Some k → Contains ks j → (k ≡ j) ⊎ Contains (drop 1 ks) j }
    ensures only { (j : Key) (ks : List Key) → Contains (drop 1 ks) j → Contains ks j }
    ensures rising { (ks : List Key) → IsRising ks → IsRising (drop 1 ks) }
    ensures none { (j : Key) (ks : List Key) → slice_get ks 0 ≡ None → Contains ks j → ⊥ }
{}

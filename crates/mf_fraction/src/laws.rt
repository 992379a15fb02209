//! Laws of the exact operations, for fractions of any size. Each function here does nothing: its
//! clauses are the laws.

ghost use Rattle.mf_fraction.specs.Decimal.{is_number, read_of};
ghost use Rattle.mf_fraction.specs.Exact.{Number, Proper, whole, reduce, sum_of, difference_of, product_of, quotient_of, negative_of, order_of, is_below, is_at_most, is_same, sign_of, sign_at, fits};
ghost use Rattle.std.specs.declared.cmp.Ordering.TheVariants.{Less, Equal, Greater};
ghost use Rattle.std.specs.Prelude.{◌≡◌, ◌<◌, ◌↔◌, ◌*◌, ◌*ℤ◌, ◌&&◌, ℕ, ℤ, pos, negsuc, true, false, not, List, Some, None, Err, if◌then◌else◌};

use crate::{Frac, NumberFault};

/// Sums.
pub fn sum_laws()
    ensures commutative { (a : Number) → (b : Number) → sum_of a b ≡ sum_of b a }
    ensures associative { (a : Number) → (b : Number) → (c : Number)
        → sum_of (sum_of a b) c ≡ sum_of a (sum_of b c) }
    ensures zero { (a : Number) → Proper a → sum_of (whole (pos 0)) a ≡ a }
    ensures negation { (a : Number) → Proper a → sum_of a (negative_of a) ≡ whole (pos 0) }
    ensures proper { (a : Number) → (b : Number) → Proper a → Proper b → Proper (sum_of a b) }
{}

/// Differences.
pub fn difference_laws()
    ensures negation { (a : Number) → (b : Number) → difference_of a b ≡ sum_of a (negative_of b) }
    ensures product { (a : Number) → (b : Number)
        → difference_of a b ≡ sum_of a (product_of (whole (negsuc 0)) b) }
    ensures sign { (a : Number) → (b : Number) → Proper a → Proper b
        → sign_of (difference_of a b) ≡ sign_at (order_of a b) }
    ensures below { (a : Number) → (b : Number) → Proper a → Proper b
        → (is_below a b ≡ true) ↔ (sign_of (difference_of a b) ≡ negsuc 0) }
    ensures proper { (a : Number) → (b : Number) → Proper a → Proper b → Proper (difference_of a b) }
    ensures proper_negation { (a : Number) → Proper a → Proper (negative_of a) }
{}

/// Products.
pub fn product_laws()
    ensures commutative { (a : Number) → (b : Number) → product_of a b ≡ product_of b a }
    ensures associative { (a : Number) → (b : Number) → (c : Number)
        → product_of (product_of a b) c ≡ product_of a (product_of b c) }
    ensures distributive { (a : Number) → (b : Number) → (c : Number) → Proper a
        → product_of a (sum_of b c) ≡ sum_of (product_of a b) (product_of a c) }
    ensures one { (a : Number) → Proper a → product_of (whole (pos 1)) a ≡ a }
    ensures zero { (a : Number) → Proper a → product_of (whole (pos 0)) a ≡ whole (pos 0) }
    ensures proper { (a : Number) → (b : Number) → Proper a → Proper b → Proper (product_of a b) }
{}

/// Quotients.
pub fn quotient_laws()
    ensures none { (a : Number) → (b : Number) → (quotient_of a b ≡ None) ↔ (b.num ≡ pos 0) }
    ensures product { (a : Number) → (b : Number) → (q : Number) → Proper a → Proper b
        → quotient_of a b ≡ Some q → product_of q b ≡ a }
    ensures proper { (a : Number) → (b : Number) → (q : Number) → Proper a
        → quotient_of a b ≡ Some q → Proper q }
{}

/// The order.
pub fn order_laws()
    ensures three { (a : Number) → (b : Number)
        → order_of a b ≡ (if is_below a b then Less
        else (if is_below b a then Greater else Equal)) }
    ensures total { (a : Number) → (b : Number) → is_at_most a b ≡ not (is_below b a) }
    ensures same { (a : Number) → (b : Number)
        → is_same a b ≡ (not (is_below a b) && not (is_below b a)) }
    ensures equal { (a : Number) → (b : Number) → Proper a → Proper b → is_same a b ≡ true → a ≡ b }
    ensures reflexive { (a : Number) → is_same a a ≡ true }
    ensures irreflexive { (a : Number) → is_below a a ≡ false }
    ensures transitive { (a : Number) → (b : Number) → (c : Number) → Proper c
        → is_below a b ≡ true → is_below b c ≡ true → is_below a c ≡ true }
{}

/// The order of sums, products and negations.
pub fn monotone_laws()
    ensures sum { (a : Number) → (b : Number) → (c : Number) → Proper a → Proper b → Proper c
        → order_of (sum_of a c) (sum_of b c) ≡ order_of a b }
    ensures product { (a : Number) → (b : Number) → (c : Number) → Proper a → Proper b → Proper c
        → sign_of c ≡ pos 1 → order_of (product_of a c) (product_of b c) ≡ order_of a b }
    ensures negation { (a : Number) → (b : Number)
        → order_of (negative_of a) (negative_of b) ≡ order_of b a }
{}

/// Lowest terms.
pub fn reduction_laws()
    ensures factor { (k : ℕ) → (n : ℤ) → (d : ℕ) → 0 < k → reduce (pos k *ℤ n) (k * d) ≡ reduce n d }
    ensures kept { (a : Number) → Proper a → reduce a.num a.den ≡ a }
    ensures proper { (n : ℤ) → (d : ℕ) → 0 < d → Proper (reduce n d) }
{}

/// Reading: `NotANumber` comes exactly at the words that are no decimal number.
pub fn reading_laws()
    ensures { (word : List ℕ)
        → (read_of word ≡ Err NumberFault.NotANumber) ↔ (is_number word ≡ false) }
{}

/// Each stored fraction is in lowest terms and fits.
pub fn stored_laws(a: Frac)
    ensures proper { Proper a }
    ensures narrow { fits a ≡ true }
{
    let _ = &a.numerator;
}

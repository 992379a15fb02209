//! Layers of possible atoms and bounds of terms over a row, and the levels of conditions and of the goal in them.
#![tactic(auto)]

mod bound;
mod counting;
mod ends;
mod gains;
mod layer;
mod level;
mod levels;
mod moves;
mod range;
mod want;

pub use bound::Bound;
pub use counting::Counting;
pub use gains::{Counted, Gains};
pub use layer::Layer;
pub use levels::Levels;
pub use range::Range;

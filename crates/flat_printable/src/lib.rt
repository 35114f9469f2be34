//! Which modules have a flat text that is read back, by one condition on their trees.
#![tactic(auto)]

mod laws;

pub use laws::{conditions_tell, printable_texts_are_spelled, printable_texts_fall_apart};

//! What the reader of left sides of declarations rests on: which tree they are, and the lemmas on how they are read.
#![tactic(auto)]

mod left_side;

pub use left_side::LeftSide;

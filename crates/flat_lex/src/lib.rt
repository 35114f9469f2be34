//! Texts as pieces, and the tokens that a reader finds in them.
#![tactic(auto)]

mod laws;

pub use laws::{literals_are_pieces, pieces_are_read};

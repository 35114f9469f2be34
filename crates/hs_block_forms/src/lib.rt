//! How the blocks of Haskell's expressions are read (Haskell 2010 Report, sections 3.12, 3.13 and 4.4): kinds of trees, and
//! lemmas on their parts.
#![tactic(auto)]

mod leaf;

pub use leaf::{after_left_brace, after_right_brace, begins_semicolon};

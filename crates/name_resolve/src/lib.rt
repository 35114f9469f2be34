//! What is asked of the declarations of a module, and their resolved trees: definitions and their laws (Haskell 2010
//! Report, chapter 4).
#![tactic(auto)]

mod laws;

pub use laws::{groups_are_ruled, names_are_exact};

//! The types that are written for values: those of type signatures and of annotations (Haskell 2010 Report, sections
//! 4.4.1 and 3.16).
#![tactic(auto)]

mod walk;

pub use walk::{Writtens, add_types_of};

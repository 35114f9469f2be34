//! Expansion of type synonyms (Haskell 2010 Report, section 4.2.2).
#![tactic(auto)]

mod apply;
mod lawful;
mod replace;

pub use lawful::first_unlawful;
pub use replace::{ExpandError, expand};

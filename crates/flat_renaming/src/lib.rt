//! What renaming keeps of a module's declarations.
#![tactic(auto)]

mod laws;

pub use laws::renaming_keeps_texts;

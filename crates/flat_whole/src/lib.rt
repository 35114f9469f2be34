//! What the flat text of a module spells.
#![tactic(auto)]

mod laws;

pub use laws::flat_text_is_spelled;

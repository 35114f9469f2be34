//! What a reader finds in the flat text of a module.
#![tactic(auto)]

mod laws;

pub use laws::{flat_text_is_read, flat_text_is_spaced, marks_are_read, names_are_lawful};

//! Where the flat texts of several modules fall apart.
#![tactic(auto)]

mod laws;

pub use laws::{flat_texts_fall_apart, names_keep_lines};

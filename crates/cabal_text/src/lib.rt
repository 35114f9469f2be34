//! The text of project files and package files: lines, fields, lists, tokens and names, as the Cabal manual has them.
#![tactic(auto)]

mod characters;
pub mod fields;
pub mod least;
pub mod lines;
pub mod names;
pub mod seen;
pub mod tokens;

pub use characters::{is_field_char, is_gap, is_space};

//! What literals stand for (Haskell 2010 Report, sections 2.5 and 2.6).
#![tactic(auto)]

mod character;
mod escape;
mod name;
mod number;
mod value;

pub use value::{character_value, integer_value, string_value};

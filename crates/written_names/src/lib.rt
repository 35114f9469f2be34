//! Written names, taken apart.
#![tactic(auto)]

mod word;

pub use word::{WrittenName, written_name};

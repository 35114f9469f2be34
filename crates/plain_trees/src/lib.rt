//! Modules of the plain form, as trees of the grammar, until the check of modules takes its place: which module a tree is.
#![tactic(auto)]

mod modules;
mod patterns;
mod sets;
mod types;
mod values;
mod words;

pub use modules::plain_of;

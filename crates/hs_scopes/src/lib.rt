//! What is in scope in a module, what a written name means there, how chains of operators are read, and the resolved
//! trees of patterns, types, expressions and declarations: definitions and their laws (Haskell 2010 Report, chapter 5
//! and section 10.6).
#![tactic(auto)]

mod examples;
mod laws;
mod scope;

pub use examples::{expressions_resolve, names_mean};
pub use laws::{
    chains_are_read, meanings_are_in_scope, names_have_one_meaning, one_reading, sections_are_read,
};
pub use scope::{MeaningFault, Scope, ScopeItem, ScopeItems};

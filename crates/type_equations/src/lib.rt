//! Types with unknowns of kinds, equations between them, and what going through a tree demands of them.
#![tactic(auto)]

mod equations;
mod syntax;

pub use equations::{Binder, Equations, Failure};
pub use syntax::{applied, boolean, character, function, functions, integer, list_of, tuple_of};

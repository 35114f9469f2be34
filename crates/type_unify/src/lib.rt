//! Unification of types with unknowns, most general and exact.
#![tactic(auto)]

mod bindings;
mod cell;
mod compare;
mod occurs;
mod resolve;
mod solve;
mod spell;
mod take_in;
mod term;
mod walk;

pub use bindings::{Bindings, unify};
pub use solve::UnifyError;
pub use term::{Node, Term};

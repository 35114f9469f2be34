//! Typings in which a local name stands for the set of types that it has.
#![tactic(auto)]

mod laws;

pub use laws::typings_are_meant;

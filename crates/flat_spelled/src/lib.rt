//! What the terminals of a flat text spell.
#![tactic(auto)]

mod laws;

pub use laws::{
    declarations_are_spelled, expressions_are_spelled, patterns_are_spelled, types_are_spelled,
};

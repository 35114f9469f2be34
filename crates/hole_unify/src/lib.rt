//! Unification of module identities (Kilpatrick and others, POPL 2014; Yang's thesis, 2017): the most general fills that make the two
//! sides of each equation one identity, and the exact reason where there are none.
#![tactic(auto)]

mod answer;
mod build;
mod classes;
mod close;
mod edge;
mod equation;
mod lawful;
mod laws;
mod lookup;
mod numbers;
mod order;
mod pair;
mod reach;
mod solve;

pub use equation::{Equation, Equations, Head, IdentUnifyError};
pub use lawful::are_lawful;
pub use laws::{
    answers_are_one, causes_are_one, clash_has_no_unifier, cycle_has_no_unifier,
    no_cause_beside_answer,
};
pub use solve::{SharedFills, unify_idents, unify_shared};

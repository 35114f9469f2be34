//! The order in which the components of a project are built for a target (Cabal manual, "build-depends").
#![tactic(auto)]

mod law;
mod nodes;
mod numbers;
mod order;

pub use law::{order_has_one_outcome, order_is_what_is_reached};
pub use order::build_order;

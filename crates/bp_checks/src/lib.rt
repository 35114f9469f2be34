//! Checks, for contracts: what a function answers and what it refuses, joined as code joins calls by `?`, over lists and along
//! walks; why a step of a command stops; and what a step that reads tells.
#![tactic(auto)]

mod law;
mod place;
mod stop;

pub use law::{build_order_has_one_outcome, build_order_is_what_is_reached};
pub use place::defect_at;
pub use stop::Stop;

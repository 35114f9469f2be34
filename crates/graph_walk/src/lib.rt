//! The depth-first walk over nodes by number: components by dependencies, modules by imports, units by fills and includes.
#![tactic(auto)]

mod law;
mod walk;

pub use law::walks_have_one_outcome;
pub use walk::{Node, Nodes, Numbers, Use, WalkError, post_order};

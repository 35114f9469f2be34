//! Identities by number: a table that holds an identity and each identity below it once. A term in which parts stand many times is
//! written out only where it is asked for as a term.
#![tactic(auto)]

mod node;
mod table;

pub use node::{IdentNode, NumberFill, NumberFills};
pub use table::IdentTable;

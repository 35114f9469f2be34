//! What it means to read trees from the front of a list of tokens, whatever the tokens are, and where a reader stops.
#![tactic(auto)]

mod error;
mod fault;

pub use error::ParseError;
pub use fault::Fault;

//! The reader of left sides of declarations (Haskell 2010 Report, sections 4.4.3.1 and 4.4.3.2): those of functions,
//! and patterns.
#![tactic(auto)]

mod functions;
mod leaf;
mod left_sides;
mod operators;

pub use functions::read_function;
pub use leaf::goes_on_left;
pub use left_sides::{one_left_side, read_left_side};
pub use operators::read_varop;

//! How chains of operators are read (Haskell 2010 Report, section 10.6).
#![tactic(auto)]

mod chain;
mod reader;
mod side;

pub use chain::{Operator, Piece, ReadError, Reading};
pub use reader::{left_section, reading, right_section};

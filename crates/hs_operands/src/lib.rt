//! Readers of the operands of Haskell's expressions (Haskell 2010 Report, chapter 3). Each is given the readers of what it
//! contains: operands, and the blocks of `let` and `case`.
#![tactic(auto)]

mod brackets;
mod leaf;
mod lists;
mod operands;
mod words;

pub use brackets::read_aexp;
pub use leaf::{after_left_bracket, after_symbol, begins_backquote};
pub use lists::{Arguments, Bunches, ExpParts, read_arguments, read_bunch, read_parts};
pub use operands::{read_case, read_if, read_lambda, read_let, read_operand};
pub use words::{named_symbol, read_word};

//! Readers of expressions and declarations, which stand inside one another (Haskell 2010 Report, chapters 3 and 4).
#![tactic(auto)]

mod nested;
mod whole;

pub use nested::{read_alts, read_decls, read_operand};
pub use whole::{read_decl, read_exp};

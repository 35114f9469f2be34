//! The flat text of a module: what a linked program is written as.
#![tactic(auto)]

mod declaration;
mod expression;
mod flat;
mod literal;
mod name;
mod pattern;
mod print;
mod types;

pub use flat::{FlatExport, FlatExports, FlatModule};
pub use print::print_module;

//! Readers of the bodies of modules and of modules (Haskell 2010 Report, chapters 4 and 5).
#![tactic(auto)]

mod blocks;
mod declarations;
mod modules;
mod parts;
mod slots;

pub use blocks::{PartChain, read_top_block};
pub use declarations::read_top_decl;
pub use modules::read_module;
pub use parts::{RunChain, read_run, read_top_part};

//! Readers of signatures (Yang 2017, "Backpack: Towards Practical Mix-in Linking for Haskell"): their declarations,
//! their block, and the whole.
#![tactic(auto)]

mod blocks;
mod declarations;
mod parts;
mod signature;
mod slots;

pub use blocks::read_sig_block;
pub use declarations::read_sig_decl;
pub use parts::{read_run, read_sig_part};
pub use signature::read_signature;

//! Readers of the declarations of blocks and of blocks of declarations (Haskell 2010 Report, section 4.4). Each is given the
//! readers of operands and of such blocks.
#![tactic(auto)]

mod blocks;
mod declarations;

pub use blocks::{DeclItems, read_decl_block};
pub use declarations::{read_binding, read_decl};

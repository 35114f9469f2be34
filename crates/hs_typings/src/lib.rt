//! Readers of declarations that bind nothing (Haskell 2010 Report, sections 4.4.1 and 4.4.2): the types of variables,
//! and how tightly operators bind.
#![tactic(auto)]

mod declarations;
mod fixities;
mod leaf;
mod operators;
mod variables;

pub use declarations::read_plain_decl;
pub use fixities::{FixityTerms, read_fixity};
pub use leaf::{begins_fixity, begins_op, begins_place};
pub use operators::read_op;
pub use variables::{Typing, VarList, read_typing, read_vars};

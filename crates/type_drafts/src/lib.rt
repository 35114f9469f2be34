//! What declarations declare before kinds and expansion are asked: type declarations, entities with types as they are
//! written, and the types that are written, each with the declared name (Haskell 2010 Report, sections 4.2 and
//! 4.4.1).
#![tactic(auto)]

mod entities;
mod heads;
mod uses;

pub use entities::drafts;
pub use heads::type_decls;
pub use uses::{TypeUse, TypeUses, all_uses, value_uses};

//! Dependency groups of type declarations and their kinds (Haskell 2010 Report, section 4.6).
#![tactic(auto)]

mod chosen;
mod module;
mod uses;

pub use chosen::{TypeGroups, all_groups, type_groups};
pub use module::{ModuleKinds, kinds_of_module};
pub use uses::{all_uses, uses_of};

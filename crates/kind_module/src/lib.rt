//! The types of a module: least kinds, lawful synonyms, and the entities that its declarations declare, with their
//! types expanded (Haskell 2010 Report, sections 4.2.2 and 4.6).
#![tactic(auto)]

mod error;
mod expand;
mod law;
mod module;
mod scheme;
mod written;

pub use error::KindsError;
pub use law::kinds_have_one_outcome;
pub use module::kinds_give;

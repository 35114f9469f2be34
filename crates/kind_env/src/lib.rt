//! What names mean to kinds and expansion, by the entities that are seen (Haskell 2010 Report, sections 4.1.2 and 5.2).
#![tactic(auto)]

mod entities;
mod special;

pub use entities::{env_of, env_within};

//! What a module exports (Haskell 2010 Report, section 5.2).
#![tactic(auto)]

mod clash;
mod clashes;
mod exports;
mod item;
mod meaning;
mod offered;
mod owners;
mod qualifiers;
mod seen;
mod sorted;
mod things;

pub use exports::exports_of;

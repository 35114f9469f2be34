//! The kinds of type declarations, dependency group after dependency group (Haskell 2010 Report, section 4.6).
#![tactic(auto)]

mod order;

pub use order::{GroupKinds, GroupKindsList, kinds_in_order};

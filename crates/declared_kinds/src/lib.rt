//! The kinds of type declarations in the order of the source, and the first synonym that leads to itself (Haskell 2010
//! Report, sections 4.2.2 and 4.6).
#![tactic(auto)]

mod cycle;
mod members;
mod source;

pub use cycle::first_on_cycle;
pub use source::source_kinds;

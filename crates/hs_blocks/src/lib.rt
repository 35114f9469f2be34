//! Readers of guards, right sides and blocks of alternatives (Haskell 2010 Report, sections 3.13 and 4.4.3).
//! Each is given the readers of operands and of blocks of declarations.
#![tactic(auto)]

mod alternatives;
mod bodies;
mod ends;
mod guards;
mod leaf;

pub use alternatives::{AltItems, read_alt_block};
pub use bodies::{AltParts, Gdas, Gds, RhsParts, read_alt, read_rhs};
pub use ends::ends_in_type;
pub use guards::{GuardParts, read_gd, read_gda, read_guard, read_guards};
pub use leaf::{after_equals, after_left_arrow, begins_bar, begins_lpat, begins_where, goes_past};

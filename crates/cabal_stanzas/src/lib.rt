//! Project files; and of package files the fields, the stanzas with their heads, and the values that stand alone, as the Cabal manual
//! has them.
#![tactic(auto)]

pub mod folder;
pub mod heads;
pub mod project;
pub mod stanzas;
pub mod table;
pub mod values;

pub use folder::{Paths, copied_paths};
pub use project::{ProjectError, read_project};

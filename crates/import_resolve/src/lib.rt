//! What is in scope in a module, and what it exports (Haskell 2010 Report, chapter 5).
#![tactic(auto)]

mod error;
mod filter;
mod import;
mod laws;
mod listing;
mod scope;
mod showing;
mod tables;
mod thing;
mod visible;
mod written;

pub use error::ScopeError;
pub use import::import_name;
pub use laws::exports_are_exact;
pub use scope::{is_prelude_written, module_name, scope_of};
pub use showing::{is_type, name_of};
pub use tables::name_set;
pub use thing::{Thing, Things};
pub use visible::{Visible, Visibles};
pub use written::sub_name;

//! What written names mean, and written types with their names known (Haskell 2010 Report, sections 4.1.2 and 5.5.2).
#![tactic(auto)]

mod build;
mod error;
mod laws;
mod name;
mod resolve;
mod types;

pub use error::NameError;
pub use laws::types_are_exact;
pub use name::meaning_of_name;
pub use resolve::{resolve_atype, resolve_btype, resolve_type};

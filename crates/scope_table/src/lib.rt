//! What written names mean in a scope, looked up in a table that is made once.
#![tactic(auto)]

mod candidate;
mod law;
mod table;

pub use candidate::Candidate;
pub use law::tables_mean;
pub use table::{ScopeTable, meant, scope_table};

//! What inference demands of clauses of functions where each local has one type. The crate has
//! definitions and lemmas alone.
#![tactic(auto)]

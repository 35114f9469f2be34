//! What inference demands of expressions where each local has one type, one lemma for each form. The crate has
//! definitions and lemmas alone.
#![tactic(auto)]

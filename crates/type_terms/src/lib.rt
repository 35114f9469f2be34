//! Terms of types: variables, constructors and applications, with what occurs in them and what replaces it. Types with original
//! names (`hs_core`) and types with unknowns (`type_unify`) are both such terms. The crate has definitions and lemmas alone.
#![tactic(auto)]

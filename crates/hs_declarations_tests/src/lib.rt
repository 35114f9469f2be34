//! A table of declarations of types with the place of their refusal.
#![tactic(auto)]

#[cfg(test)]
mod declaration_tests;

//! Tables of types, kinds and patterns with the index of their refusal.
#![tactic(auto)]

#[cfg(test)]
mod grammar_tests;
#[cfg(test)]
mod parse_tests;

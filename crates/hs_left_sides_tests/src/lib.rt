//! A table of left sides with the place of their refusal.
#![tactic(auto)]

#[cfg(test)]
mod left_side_tests;

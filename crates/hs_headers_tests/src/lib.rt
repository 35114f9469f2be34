//! Tables of exports and imports with the place of their refusal.
#![tactic(auto)]

#[cfg(test)]
mod header_tests;

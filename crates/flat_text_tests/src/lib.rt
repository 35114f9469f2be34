//! Tables of resolved trees, as programs that build them, with their flat text.
#![tactic(auto)]

#[cfg(test)]
mod print_tests;
#[cfg(test)]
mod trees;

//! A table of literals and what they stand for.
#![tactic(auto)]

#[cfg(test)]
mod tests;

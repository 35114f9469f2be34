//! A table of names and of what they mean.
#![tactic(auto)]

#[cfg(test)]
mod tests;

//! Worked values of `haskell_layout`.
#![tactic(auto)]

#[cfg(test)]
mod tests;

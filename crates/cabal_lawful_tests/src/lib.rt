//! Worked values of `cabal_lawful`.
#![tactic(auto)]

#[cfg(test)]
mod tests;

//! Worked values of `haskell_module`.
#![tactic(auto)]

#[cfg(test)]
mod tests;

//! Worked values of `hs_modules`.
#![tactic(auto)]

#[cfg(test)]
mod tests;

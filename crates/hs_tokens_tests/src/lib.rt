//! Worked values of `hs_tokens`.
#![tactic(auto)]

#[cfg(test)]
mod tests;

//! Worked values of `hs_plain`.
#![tactic(auto)]

#[cfg(test)]
mod tests;

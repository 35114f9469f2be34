//! Worked values of `bp_base`.
#![tactic(auto)]

#[cfg(test)]
mod tests;

//! Worked values of `bp_edges`.
#![tactic(auto)]

#[cfg(test)]
mod tests;

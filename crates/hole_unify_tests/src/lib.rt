//! Worked values of `hole_unify`.
#![tactic(auto)]

#[cfg(test)]
mod tests;

//! Worked values of `unit_identity`.
#![tactic(auto)]

#[cfg(test)]
mod tests;

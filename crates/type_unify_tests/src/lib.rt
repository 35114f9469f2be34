//! Worked values of `type_unify`.
#![tactic(auto)]

#[cfg(test)]
mod tests;

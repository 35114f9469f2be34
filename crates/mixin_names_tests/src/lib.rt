//! Worked values of `mixin_names`.
#![tactic(auto)]

#[cfg(test)]
mod tests;

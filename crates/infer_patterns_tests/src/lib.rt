//! Worked values of `infer_patterns`.
#![tactic(auto)]

#[cfg(test)]
mod tests;

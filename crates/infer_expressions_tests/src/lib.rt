//! Worked values of `infer_expressions`.
#![tactic(auto)]

#[cfg(test)]
mod tests;

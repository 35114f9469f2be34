//! Worked values of `project_order`.
#![tactic(auto)]

#[cfg(test)]
mod tests;

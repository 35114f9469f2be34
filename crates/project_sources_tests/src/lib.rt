//! Worked values of `project_sources`.
#![tactic(auto)]

#[cfg(test)]
mod tests;

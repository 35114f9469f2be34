//! Worked values of `graph_walk`.
#![tactic(auto)]

#[cfg(test)]
mod tests;

//! Tables of chains of operators and their readings.
#![tactic(auto)]

#[cfg(test)]
mod tests;

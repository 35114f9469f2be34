//! Tables of imports and of what they bring.
#![tactic(auto)]

#[cfg(test)]
mod tests;

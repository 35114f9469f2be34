//! Tables of export lists and of what they export.
#![tactic(auto)]

#[cfg(test)]
mod tests;

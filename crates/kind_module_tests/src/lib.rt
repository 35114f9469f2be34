//! The tables that the types of a module are tried on.
#![tactic(auto)]

#[cfg(test)]
mod reading;
#[cfg(test)]
mod tables;
#[cfg(test)]
mod tests;

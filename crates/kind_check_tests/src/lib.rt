//! Worked values of `kind_check`.
#![tactic(auto)]

#[cfg(test)]
mod reading;
#[cfg(test)]
mod tables;
#[cfg(test)]
mod tests;

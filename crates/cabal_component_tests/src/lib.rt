//! Worked values of `cabal_text`, `cabal_stanzas` and `cabal_component`.
#![tactic(auto)]

#[cfg(test)]
mod bad_input;
#[cfg(test)]
mod component_tables;
#[cfg(test)]
mod shown;
#[cfg(test)]
mod tables;
#[cfg(test)]
mod tests;

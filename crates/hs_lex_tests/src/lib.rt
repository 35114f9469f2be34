//! Worked values of `hs_lex`.
#![tactic(auto)]

#[cfg(test)]
mod tests;

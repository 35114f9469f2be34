//! Worked values of `ident_table`.
#![tactic(auto)]

#[cfg(test)]
mod tests;

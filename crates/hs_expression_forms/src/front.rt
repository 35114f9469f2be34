//! What stands first between round brackets.
use hs_modules::{ExpTree, InfixTree, QOpTree};

/// What stands first between round brackets.
#[derive(Drop)]
pub enum Front {
    Exp(ExpTree),
    /// A chain and the operator of a left section (Haskell 2010 Report, section 3.5).
    Section(InfixTree, QOpTree),
}

//! What stands before the right side of a declaration (Haskell 2010 Report, sections 4.4.3.1 and 4.4.3.2).

use hs_modules::FunLhsTree;
use hs_trees::PatTree;

/// The left side of a function, or a pattern. A variable alone is a pattern.
#[derive(Drop)]
pub enum LeftSide {
    /// `f x`, `x + y`, `(x + y) z`
    Function(FunLhsTree),
    /// `x`, `(a, b)`, `x : xs`
    Pattern(PatTree),
}

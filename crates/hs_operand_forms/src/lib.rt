//! How the operands of Haskell's expressions are read (Haskell 2010 Report, chapter 3): what stands behind their first
//! tokens, and lemmas on each of them.
#![tactic(auto)]

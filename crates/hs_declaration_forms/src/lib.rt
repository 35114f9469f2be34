//! How declarations are read, in definitions and lemmas (Haskell 2010 Report, chapter 4): those that bind nothing, and
//! data types with constructors.
#![tactic(auto)]

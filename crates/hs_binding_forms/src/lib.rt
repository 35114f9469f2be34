//! How the declarations of blocks are read (Haskell 2010 Report, section 4.4), in definitions and lemmas.
#![tactic(auto)]

//! Whatever its depth, a tree of Haskell's grammar is the only one that its tokens spell, in definitions and lemmas.
#![tactic(auto)]

//! How signatures are read (Haskell 2010 Report, chapter 5; Yang 2017, "Backpack: Towards Practical Mix-in Linking for
//! Haskell"): their declarations and their block, in definitions and lemmas.
#![tactic(auto)]

mod parts;

pub use parts::SigPart;

//! The forms of expressions (Haskell 2010 Report, chapter 3): what it means to read them from the front of the terminals,
//! and the lemmas by which their readers are proved.
#![tactic(auto)]

mod front;

pub use front::Front;

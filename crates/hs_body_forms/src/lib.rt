//! How modules are read (Haskell 2010 Report, chapters 4 and 5), of declarations that a reader is given for: top
//! declarations and blocks of modules, in definitions and lemmas.
#![tactic(auto)]

mod parts;

pub use parts::TopPart;

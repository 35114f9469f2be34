//! The tokens of Haskell sources (Haskell 2010 Report, chapter 2).
#![tactic(auto)]

mod capital;
mod class;
mod comment;
mod kind;
mod literal;
mod name;
mod number;
mod piece;
mod reader;

pub use class::{Class, Start};
pub use kind::{Form, Kind, Part};
pub use reader::{LexError, lex, one_answer, one_cover};

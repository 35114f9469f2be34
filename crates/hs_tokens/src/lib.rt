//! Tokens of Haskell sources, and the terminals of the grammar.
#![tactic(auto)]

mod terminal;
mod token;
mod word;

pub use terminal::{
    Terminal, Terminals, is_reserved, reserved_of, special_of, symbol_of, terminal_of, terminals_of,
};
pub use token::{Token, TokenKind, Tokens};
pub use word::{Word, is_left_out, word_of};

//! Tokens of Haskell sources (Haskell 2010 Report, chapter 2).
ghost use Rattle.std.specs.Prelude.{◌≡◌, IfOk};

use bp_base::Bytes;
use sqlite_items::Items;
use std::alloc::{AllocError, Global};

/// What a token is. A qualified name has the kind of its last part.
#[derive(Clone, Copy, Debug, PartialEq, Eq)]
pub enum TokenKind {
    /// A name that begins with a small letter or `_`.
    Var,
    /// A name that begins with a capital letter.
    Con,
    /// A symbol that does not begin with a colon.
    VarSym,
    /// A symbol that begins with a colon.
    ConSym,
    /// A reserved word or symbol.
    Reserved,
    /// One of `(`, `)`, `,`, `;`, `[`, `]`, `{`, `}` and the backquote.
    Special,
    Integer,
    Char,
    /// A string literal.
    Text,
}

/// A token where it stands in its source.
#[derive(Debug, Drop)]
pub struct Token {
    pub kind: TokenKind,
    /// Its bytes as they are written; of a token that layout makes, the one character.
    pub text: Bytes,
    /// The number of bytes before it in the source.
    pub offset: u64,
    /// Its column in characters, from 1; 0 of a token that layout makes.
    pub column: u64,
    /// Whether only white space and comments stand before it on its line.
    pub first: bool,
}

/// Tokens in the order of the source.
pub type Tokens = Items<Token>;

impl Token {
    /// The same token once more.
    pub fn copied(&self, alloc: Global) -> Result<Token, AllocError>
        ensures { IfOk result (λ r. r ≡ self.now) }
    {
        Ok(Token {
            kind: self.kind,
            text: self.text.copied(alloc)?,
            offset: self.offset,
            column: self.column,
            first: self.first,
        })
    }
}

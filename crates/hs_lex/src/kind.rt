//! What the pieces of a source are.
use hs_tokens::TokenKind;

/// What a piece of the source is.
#[derive(Clone, Copy, Debug, PartialEq, Eq)]
pub enum Kind {
    White,
    Comment,
    Token(TokenKind),
    /// A word or a number that this project leaves out.
    LeftOut,
    /// What cannot be read to its end, or begins nothing.
    Broken,
}

/// The form of a number.
#[derive(Clone, Copy, Debug, PartialEq, Eq)]
pub enum Form {
    Decimal,
    Octal,
    Hexadecimal,
    Floating,
}

/// What stands behind a part of a name that begins with a capital.
#[derive(Clone, Copy, Debug, PartialEq, Eq)]
pub enum Part {
    /// Nothing of the name.
    End,
    /// A dot and one more such part, with so many bytes.
    More(usize),
    /// A dot and the last part of a qualified name, with so many bytes.
    Last(Kind, usize),
}

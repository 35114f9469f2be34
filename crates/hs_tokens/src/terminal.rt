//! Tokens as the grammar sees them: what a token is, without its place.
ghost use Rattle.std.specs.Prelude.{◌≡◌, IfOk, map};
ghost use Rattle.hs_tokens.specs.Terminals.{terminal_of, special_of, symbol_of, reserved_of, is_reserved, is_qualified};

use crate::token::{Token, TokenKind, Tokens};
use crate::word::{Word, word_of};
use bp_base::Bytes;
use sqlite_items::Items;
use std::alloc::{AllocError, Global};

/// A terminal of the grammar (Haskell 2010 Report, chapter 10). Names and literals are as they are written.
#[derive(Debug, Drop)]
pub enum Terminal {
    /// `varid`
    Var(Bytes),
    /// A qualified `varid`.
    QVar(Bytes),
    /// `conid`, qualified or not.
    Con(Bytes),
    /// `varsym`
    VarSym(Bytes),
    /// A qualified `varsym`.
    QVarSym(Bytes),
    /// `consym`, qualified or not.
    ConSym(Bytes),
    Integer(Bytes),
    Char(Bytes),
    /// A string literal.
    Text(Bytes),
    LeftParen,
    RightParen,
    Comma,
    Semicolon,
    LeftBracket,
    RightBracket,
    LeftBrace,
    RightBrace,
    Backquote,
    /// `_`
    Underscore,
    /// `:`
    Colon,
    /// `->`
    Arrow,
    /// `<-`
    LeftArrow,
    /// `=`
    Equals,
    /// `|`
    Bar,
    /// `\`
    Backslash,
    /// `@`
    At,
    /// `~`
    Tilde,
    /// `::`
    DoubleColon,
    /// `..`
    DotDot,
    /// `=>`
    DoubleArrow,
    /// A reserved word.
    Word(Word),
    /// A special or reserved token with another text; a source has none.
    Other,
}

/// Terminals in the order of the source.
pub type Terminals = Items<Terminal>;

/// What a special token is, by its one character.
pub fn special_of(text: &[u8]) -> Terminal
    ensures { result ≡ special_of text.now }
{
    match text {
        b"(" => Terminal::LeftParen,
        b")" => Terminal::RightParen,
        b"," => Terminal::Comma,
        b";" => Terminal::Semicolon,
        b"[" => Terminal::LeftBracket,
        b"]" => Terminal::RightBracket,
        b"{" => Terminal::LeftBrace,
        b"}" => Terminal::RightBrace,
        b"`" => Terminal::Backquote,
        _ => Terminal::Other,
    }
}

/// What a reserved symbol is, `_` among them.
#[tactic(auto, unfolding(crate::specs::Terminals::symbol_of))]
pub fn symbol_of(text: &[u8]) -> Option<Terminal>
    ensures { result ≡ symbol_of text.now }
{
    match text {
        b"_" => Some(Terminal::Underscore),
        b":" => Some(Terminal::Colon),
        b"->" => Some(Terminal::Arrow),
        b"<-" => Some(Terminal::LeftArrow),
        b"=" => Some(Terminal::Equals),
        b"|" => Some(Terminal::Bar),
        b"\\" => Some(Terminal::Backslash),
        b"@" => Some(Terminal::At),
        b"~" => Some(Terminal::Tilde),
        b"::" => Some(Terminal::DoubleColon),
        b".." => Some(Terminal::DotDot),
        b"=>" => Some(Terminal::DoubleArrow),
        _ => None,
    }
}

/// What a reserved symbol or word is.
pub fn reserved_of(text: &[u8]) -> Terminal
    ensures { result ≡ reserved_of text.now }
{
    match (symbol_of(text), word_of(text)) {
        (Some(symbol), _) => symbol,
        (None, Some(word)) => Terminal::Word(word),
        (None, None) => Terminal::Other,
    }
}

/// Whether Haskell reserves the text, be it a word or a symbol.
#[tactic(auto, unfolding(crate::specs::Terminals::is_reserved))]
pub fn is_reserved(text: &[u8]) -> bool
    ensures { result ≡ is_reserved text.now }
{
    symbol_of(text).is_some() || word_of(text).is_some()
}

/// Whether a variable or symbol begins with a module's name.
fn qualified(text: &[u8]) -> bool
    ensures { result ≡ is_qualified text.now }
{
    match text.first() {
        Some(b'A'..=b'Z') => true,
        _ => false,
    }
}

/// What the grammar sees of a token.
pub fn terminal_of(alloc: Global, token: &Token) -> Result<Terminal, AllocError>
    ensures { IfOk result (λ r. r ≡ terminal_of token.now) }
{
    let text = token.text.as_bytes();
    match token.kind {
        TokenKind::Var if qualified(text) => Ok(Terminal::QVar(token.text.copied(alloc)?)),
        TokenKind::Var => Ok(Terminal::Var(token.text.copied(alloc)?)),
        TokenKind::Con => Ok(Terminal::Con(token.text.copied(alloc)?)),
        TokenKind::VarSym if qualified(text) => Ok(Terminal::QVarSym(token.text.copied(alloc)?)),
        TokenKind::VarSym => Ok(Terminal::VarSym(token.text.copied(alloc)?)),
        TokenKind::ConSym => Ok(Terminal::ConSym(token.text.copied(alloc)?)),
        TokenKind::Reserved => Ok(reserved_of(text)),
        TokenKind::Special => Ok(special_of(text)),
        TokenKind::Integer => Ok(Terminal::Integer(token.text.copied(alloc)?)),
        TokenKind::Char => Ok(Terminal::Char(token.text.copied(alloc)?)),
        TokenKind::Text => Ok(Terminal::Text(token.text.copied(alloc)?)),
    }
}

/// What the grammar sees of tokens.
pub fn terminals_of(alloc: Global, tokens: &Tokens) -> Result<Terminals, AllocError>
    ensures { IfOk result (λ r. r ≡ map terminal_of tokens.now) }
{
    let mut seen = Items::new(alloc);
    'tokens: for token in tokens.as_slice() {
        seen.push(terminal_of(alloc, token)?)?;
    }
    Ok(seen)
}

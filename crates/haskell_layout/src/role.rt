//! What a token is to layout, and the tokens that layout makes.
ghost use Rattle.std.specs.Prelude.{◌≡◌, IfOk};
ghost use Rattle.haskell_layout.specs.Role.{role_of, terminal_role, word_role, name_role, made_token, makes_due, begins_item};

use bp_base::Bytes;
use hs_tokens::{Terminal, Token, TokenKind, Word, reserved_of, special_of};
use std::alloc::{AllocError, Global};

/// What a token is to layout.
#[derive(Clone, Copy, Debug, PartialEq, Eq)]
pub enum Role {
    OpenParen,
    CloseParen,
    OpenBracket,
    CloseBracket,
    OpenBrace,
    CloseBrace,
    Comma,
    Semicolon,
    If,
    Then,
    Else,
    Case,
    Of,
    Let,
    In,
    Where,
    /// `\`
    Lambda,
    /// `|`
    Bar,
    /// `->`
    Arrow,
    Equals,
    /// `module` or `signature`, with which a source with a header begins.
    Header,
    Other,
}

/// A token that layout makes.
#[derive(Clone, Copy, Debug, PartialEq, Eq)]
pub enum Made {
    /// `{`
    Open,
    /// `}`
    Close,
    /// `;`
    Semicolon,
}

/// What a terminal is to layout.
fn terminal_role(terminal: &Terminal) -> Role
    ensures { result ≡ terminal_role terminal.now }
{
    match terminal {
        Terminal::LeftParen => Role::OpenParen,
        Terminal::RightParen => Role::CloseParen,
        Terminal::LeftBracket => Role::OpenBracket,
        Terminal::RightBracket => Role::CloseBracket,
        Terminal::LeftBrace => Role::OpenBrace,
        Terminal::RightBrace => Role::CloseBrace,
        Terminal::Comma => Role::Comma,
        Terminal::Semicolon => Role::Semicolon,
        Terminal::Backslash => Role::Lambda,
        Terminal::Bar => Role::Bar,
        Terminal::Arrow => Role::Arrow,
        Terminal::Equals => Role::Equals,
        Terminal::Word(word) => word_role(*word),
        _ => Role::Other,
    }
}

fn word_role(word: Word) -> Role
    ensures { result ≡ word_role word }
{
    match word {
        Word::If => Role::If,
        Word::Then => Role::Then,
        Word::Else => Role::Else,
        Word::Case => Role::Case,
        Word::Of => Role::Of,
        Word::Let => Role::Let,
        Word::In => Role::In,
        Word::Where => Role::Where,
        Word::Module => Role::Header,
        _ => Role::Other,
    }
}

/// `signature` is a name that begins a header.
fn name_role(text: &[u8]) -> Role
    ensures { result ≡ name_role text.now }
{
    match text {
        b"signature" => Role::Header,
        _ => Role::Other,
    }
}

/// What the token is to layout.
pub fn role_of(token: &Token) -> Role
    ensures { result ≡ role_of token.now }
{
    let text = token.text.as_bytes();
    match token.kind {
        TokenKind::Special => terminal_role(&special_of(text)),
        TokenKind::Reserved => terminal_role(&reserved_of(text)),
        TokenKind::Var => name_role(text),
        _ => Role::Other,
    }
}

/// Whether a block is due behind the token.
pub fn makes_due(role: Role) -> bool
    ensures { result ≡ makes_due role }
{
    matches!(role, Role::Let | Role::Where | Role::Of)
}

/// Whether an item of a block can begin behind the token.
pub fn begins_item(role: Role) -> bool
    ensures { result ≡ begins_item role }
{
    matches!(role, Role::OpenBrace | Role::Semicolon)
}

/// The token that is made at an offset.
pub fn made_token(alloc: Global, made: Made, offset: u64) -> Result<Token, AllocError>
    ensures { IfOk result (λ token. token ≡ made_token made offset) }
{
    let text = match made {
        Made::Open => Bytes::from_bytes(alloc, b"{")?,
        Made::Close => Bytes::from_bytes(alloc, b"}")?,
        Made::Semicolon => Bytes::from_bytes(alloc, b";")?,
    };
    Ok(Token {
        kind: TokenKind::Special,
        text,
        offset,
        column: 0,
        first: false,
    })
}

//! The tokens of a source.
ghost use Rattle.std.specs.Prelude.{◌≡◌};
ghost use Rattle.hs_lex.specs.Classes.{is_in};
ghost use Rattle.hs_lex.specs.Cover.{next_column, column_behind, has_ending, first_behind, token_of, Takes, Lexes, OneCover, OneAnswer};

use crate::capital::front;
use crate::class::{Class, count, holds};
use crate::kind::Kind;
use crate::literal::behind;
use crate::piece::piece;
use bp_base::Bytes;
use hs_tokens::{Token, Tokens};
use std::alloc::{AllocError, Global};

/// Why a source has no tokens.
#[derive(Debug, Drop, PartialEq, Eq)]
pub enum LexError {
    /// A comment, token or character that cannot be read to its end begins behind so many bytes.
    Lexical { offset: u64 },
    /// A word or number that this project leaves out begins behind so many bytes.
    LeftOut { offset: u64 },
    NoMemory,
}

impl From<AllocError> for LexError {
    ghost use Rattle.hs_lex.specs.declared.reader.LexError.{LexError};

    ghost from_gives = { λ _ r. r ≡ LexError.NoMemory };

    fn from(_error: AllocError) -> LexError {
        LexError::NoMemory
    }
}

/// The column behind a byte.
fn column_after(column: u64, byte: u8) -> u64
    ensures { result ≡ next_column column byte }
{
    if holds(Class::Ending, byte) {
        1
    } else if byte == b'\t' {
        (column.saturating_sub(1) / 8 * 8).saturating_add(9)
    } else if holds(Class::Continuation, byte) {
        column
    } else {
        column.saturating_add(1)
    }
}

/// The column behind the bytes.
fn column_past(column: u64, bytes: &[u8]) -> u64
    ensures { result ≡ column_behind column bytes.now }
{
    let mut at = column;
    let mut left = bytes;
    'bytes: while let Some((byte, rest)) = left.split_first() {
        at = column_after(at, *byte);
        left = rest;
    }
    at
}

/// Whether a line ends in the bytes.
fn ends_line(bytes: &[u8]) -> bool
    ensures { result ≡ has_ending bytes.now }
{
    count(Class::Line, bytes) != bytes.len()
}

/// Whether only white space and comments stand on the line before what is behind this piece.
fn first_after(first: bool, kind: Kind, text: &[u8]) -> bool
    ensures { result ≡ first_behind first kind text.now }
{
    match kind {
        Kind::White | Kind::Comment => first || ends_line(text),
        Kind::Token(_) | Kind::LeftOut | Kind::Broken => false,
    }
}

/// Passes a piece, or takes its token.
fn take_piece(
    alloc: Global,
    tokens: &mut Tokens,
    kind: Kind,
    text: &[u8],
    offset: u64,
    column: u64,
    first: bool,
) -> Result<(), LexError>
    ensures { Takes tokens.old tokens.new (token_of kind text.now offset column first) kind offset result }
{
    match kind {
        Kind::White | Kind::Comment => Ok(()),
        Kind::Broken => Err(LexError::Lexical { offset }),
        Kind::LeftOut => Err(LexError::LeftOut { offset }),
        Kind::Token(kind) => {
            let text = Bytes::from_bytes(alloc, text)?;
            tokens.push(Token {
                kind,
                text,
                offset,
                column,
                first,
            })?;
            Ok(())
        }
    }
}

/// The tokens of a source (Haskell 2010 Report, chapter 2), with offsets in bytes from 0 and columns in characters from 1. The first
/// piece that cannot be read, or that this project leaves out, is answered with the number of bytes before it.
pub fn lex(alloc: Global, bytes: &[u8]) -> Result<Tokens, LexError>
    ensures { Lexes bytes.now result }
{
    let mut tokens = Tokens::new(alloc);
    let mut left = bytes;
    let mut offset: u64 = 0;
    let mut column: u64 = 1;
    let mut first = true;
    'pieces: while let Some((byte, rest)) = left.split_first() {
        let (kind, more) = piece(left, *byte, rest);
        let text = front(more + 1, left);
        take_piece(alloc, &mut tokens, kind, text, offset, column, first)?;
        first = first_after(first, kind, text);
        column = column_past(column, text);
        offset += text.len() as u64;
        left = behind(more + 1, left);
    }
    Ok(tokens)
}

/// No two lists of pieces cover one source.
pub fn one_cover()
    ensures { OneCover }
{}

/// No source has two answers, want of memory aside.
pub fn one_answer()
    ensures { OneAnswer }
{}

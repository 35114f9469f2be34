//! Tokens, and the braces and semicolons that their layout stands for.
ghost use Rattle.std.specs.Prelude.{◌≡◌, length};
ghost use Rattle.haskell_module.specs.Sources.{tokens_read, ChecksSource, offset_at, source_error, laid_error};

use crate::error::SourceError;
use haskell_layout::{LayoutError, layout};
use hs_lex::{LexError, lex};
use hs_tokens::{Token, Tokens};
use std::alloc::Global;

fn lex_failed(error: LexError) -> SourceError
    ensures { result ≡ source_error error }
{
    match error {
        LexError::Lexical { offset } => SourceError::Lexical { offset },
        LexError::LeftOut { offset } => SourceError::LeftOut { offset },
        LexError::NoMemory => SourceError::NoMemory,
    }
}

/// The number of bytes before the token at the index; before the end of the source where there is none.
pub fn offset_at(tokens: &[Token], end: u64, index: u64) -> u64
    ensures { result ≡ offset_at tokens.now end index }
{
    match tokens.get(index as usize) {
        Some(token) => token.offset,
        None => end,
    }
}

fn layout_failed(tokens: &[Token], end: u64, error: LayoutError) -> SourceError
    ensures { result ≡ laid_error tokens.now end error }
{
    match error {
        LayoutError::Layout { index } => SourceError::Layout {
            offset: offset_at(tokens, end, index),
        },
        LayoutError::NoMemory => SourceError::NoMemory,
    }
}

/// The tokens of a source with the braces and semicolons that their layout stands for. Whatever the lexer refuses comes before what layout
/// refuses, wherever both stand.
pub fn read_tokens(alloc: Global, bytes: &[u8]) -> Result<Tokens, SourceError>
    ensures { ChecksSource (tokens_read bytes.now) result }
{
    let end = bytes.len() as u64;
    let tokens = match lex(alloc, bytes) {
        Ok(tokens) => tokens,
        Err(error) => return Err(lex_failed(error)),
    };
    match layout(alloc, &tokens, end) {
        Ok(laid) => Ok(laid),
        Err(error) => Err(layout_failed(tokens.as_slice(), end, error)),
    }
}

//! Names and symbols.
ghost use Rattle.std.specs.Prelude.{◌≡◌};
ghost use Rattle.hs_lex.specs.Words.{is_dashes, word_kind, operator, symbol_kind, is_plain_word, is_plain_symbol};

use crate::class::{Class, count};
use crate::kind::Kind;
use hs_tokens::{TokenKind, is_left_out, is_reserved, word_of};

/// What a word that begins with a small letter is.
pub fn kind_of_word(word: &[u8]) -> Kind
    ensures { result ≡ word_kind word.now }
{
    match word_of(word) {
        Some(left_out) if is_left_out(left_out) => Kind::LeftOut,
        _ if is_reserved(word) => Kind::Token(TokenKind::Reserved),
        _ => Kind::Token(TokenKind::Var),
    }
}

/// What a symbol is that is not reserved.
pub fn kind_of_operator(symbol: &[u8]) -> Kind
    ensures { result ≡ operator symbol.now }
{
    match symbol.first() {
        Some(b':') => Kind::Token(TokenKind::ConSym),
        _ => Kind::Token(TokenKind::VarSym),
    }
}

/// What a symbol is.
pub fn kind_of_symbol(symbol: &[u8]) -> Kind
    ensures { result ≡ symbol_kind symbol.now }
{
    if is_reserved(symbol) {
        Kind::Token(TokenKind::Reserved)
    } else {
        kind_of_operator(symbol)
    }
}

/// Whether the word may stand behind the dot of a qualified name.
pub fn plain_word(word: &[u8]) -> bool
    ensures { result ≡ is_plain_word word.now }
{
    !is_reserved(word)
}

/// Whether there are two dashes or more.
fn dashes(symbol: &[u8]) -> bool
    ensures { result ≡ is_dashes symbol.now }
{
    symbol.len() > 1 && count(Class::Dash, symbol) == symbol.len()
}

/// Whether the symbol may stand behind the dot of a qualified name.
pub fn plain_symbol(symbol: &[u8]) -> bool
    ensures { result ≡ is_plain_symbol symbol.now }
{
    !(is_reserved(symbol) || dashes(symbol))
}

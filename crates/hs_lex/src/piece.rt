//! The piece that stands at the front of a source.
ghost use Rattle.std.specs.Prelude.{◌≡◌, ◌≤◌, ◌∷◌, ◌<◌, length, IfSome};
ghost use Rattle.hs_lex.specs.Classes.{start_of};
ghost use Rattle.hs_lex.specs.Literals.{char_len, string_len};
ghost use Rattle.hs_lex.specs.Lexicon.{kind_by, kind_of};
ghost use Rattle.hs_lex.specs.Longest.{Longest};
ghost use Rattle.hs_lex.specs.declared.class.Start.TheVariants.{Small, Digit, Brace, Symbol, Quote, DoubleQuote};

use crate::capital::{capital_len, front};
use crate::class::{Class, Start, count, opening};
use crate::comment::{checked_kind, dashed, nested};
use crate::kind::Kind;
use crate::literal::{character_literal, string};
use crate::name::{kind_of_symbol, kind_of_word};
use crate::number::{kind_of_number, number_len};
use hs_tokens::TokenKind;

/// A word: its kind, and how many bytes it has behind its first one.
fn word(text: &[u8], first: u8, rest: &[u8]) -> (Kind, usize)
    requires { text.now ≡ first ∷ rest.now }
    ensures { Longest (kind_by Small first) rest.now result.0 result.1 }
{
    let len = count(Class::Name, rest);
    (kind_of_word(front(len + 1, text)), len)
}

/// A number.
fn number(text: &[u8], first: u8, rest: &[u8]) -> (Kind, usize)
    requires { text.now ≡ first ∷ rest.now }
    ensures { Longest (kind_by Digit first) rest.now result.0 result.1 }
{
    let (form, len) = number_len(first, rest);
    (kind_of_number(front(len + 1, text), form), len)
}

/// A symbol, or a comment to the end of the line.
fn symbol(text: &[u8], first: u8, rest: &[u8]) -> (Kind, usize)
    requires { text.now ≡ first ∷ rest.now }
    ensures { Longest (kind_by Symbol first) rest.now result.0 result.1 }
{
    if dashed(first, rest) {
        let line = count(Class::Line, rest);
        return (checked_kind(front(line + 1, text), Kind::Comment), line);
    }
    let len = count(Class::Symbol, rest);
    (kind_of_symbol(front(len + 1, text)), len)
}

/// A `{`, or a nested comment.
fn brace(text: &[u8], first: u8, rest: &[u8]) -> (Kind, usize)
    requires { text.now ≡ first ∷ rest.now }
    ensures { Longest (kind_by Brace first) rest.now result.0 result.1 }
{
    let Some((dash, inside)) = rest.split_first() else {
        return (Kind::Token(TokenKind::Special), 0);
    };
    if *dash != b'-' {
        return (Kind::Token(TokenKind::Special), 0);
    }
    match nested(inside) {
        Some(len) => (checked_kind(front(len + 2, text), Kind::Comment), len + 1),
        None => (Kind::Broken, rest.len()),
    }
}

/// A character.
fn character(text: &[u8], first: u8, rest: &[u8]) -> (Kind, usize)
    requires { text.now ≡ first ∷ rest.now }
    ensures { Longest (kind_by Quote first) rest.now result.0 result.1 }
{
    match character_literal(rest) {
        Some(len) => (
            checked_kind(front(len + 1, text), Kind::Token(TokenKind::Char)),
            len,
        ),
        None => (Kind::Broken, 0),
    }
}

/// A string.
fn string_literal(text: &[u8], first: u8, rest: &[u8]) -> (Kind, usize)
    requires { text.now ≡ first ∷ rest.now }
    ensures { Longest (kind_by DoubleQuote first) rest.now result.0 result.1 }
{
    match string(rest) {
        Some(len) => (
            checked_kind(front(len + 1, text), Kind::Token(TokenKind::Text)),
            len,
        ),
        None => (Kind::Broken, 0),
    }
}

/// The longest piece at the front of the text: its kind, and how many bytes it has behind its first one.
pub fn piece(text: &[u8], first: u8, rest: &[u8]) -> (Kind, usize)
    requires { text.now ≡ first ∷ rest.now }
    ensures { Longest (kind_by (start_of first) first) rest.now result.0 result.1 }
{
    match opening(first) {
        Start::Small => word(text, first, rest),
        Start::Large => capital_len(rest),
        Start::Digit => number(text, first, rest),
        Start::White => (Kind::White, 0),
        Start::Brace => brace(text, first, rest),
        Start::Special => (Kind::Token(TokenKind::Special), 0),
        Start::Symbol => symbol(text, first, rest),
        Start::Quote => character(text, first, rest),
        Start::DoubleQuote => string_literal(text, first, rest),
        Start::Other => (Kind::Broken, 0),
    }
}

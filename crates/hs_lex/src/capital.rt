//! Names that begin with a capital letter, and qualified names.
ghost use Rattle.std.specs.Prelude.{◌≡◌, ◌≤◌, ◌∷◌, false, length, take};
ghost use Rattle.hs_lex.specs.Classes.{is_in, begins};
ghost use Rattle.hs_lex.specs.Lexicon.{capital};
ghost use Rattle.hs_lex.specs.Longest.{Longest};
ghost use Rattle.hs_lex.specs.Parts.{IsLast, IsPart};
ghost use Rattle.hs_lex.specs.declared.class.Class.TheVariants.{Name};

use crate::class::{Class, Start, count, opening};
use crate::kind::{Kind, Part};
use crate::literal::behind;
use crate::name::{kind_of_operator, plain_symbol, plain_word};
use hs_tokens::TokenKind;

/// So many bytes at the front.
pub fn front(len: usize, bytes: &[u8]) -> &[u8]
    requires { len ≤ length bytes.now }
    ensures { result.now ≡ take len bytes.now }
{
    &bytes[..len]
}

/// The last part of a qualified name: its kind, and how many bytes it has behind its first one.
fn last(text: &[u8], first: u8, rest: &[u8]) -> Option<(Kind, usize)>
    requires { text.now ≡ first ∷ rest.now }
    ensures { IsLast first rest.now result }
{
    match opening(first) {
        Start::Small => {
            let len = count(Class::Name, rest);
            if plain_word(front(len + 1, text)) {
                Some((Kind::Token(TokenKind::Var), len))
            } else {
                None
            }
        }
        Start::Symbol => {
            let len = count(Class::Symbol, rest);
            let symbol = front(len + 1, text);
            if plain_symbol(symbol) {
                Some((kind_of_operator(symbol), len))
            } else {
                None
            }
        }
        _ => None,
    }
}

/// What stands behind a part of a name.
fn part(bytes: &[u8]) -> Part
    requires { begins (is_in Name) bytes.now ≡ false }
    ensures { IsPart bytes.now result }
{
    let Some((dot, tail)) = bytes.split_first() else {
        return Part::End;
    };
    if *dot != b'.' {
        return Part::End;
    }
    let Some((first, rest)) = tail.split_first() else {
        return Part::End;
    };
    if first.is_ascii_uppercase() {
        return Part::More(count(Class::Name, rest) + 2);
    }
    match last(tail, *first, rest) {
        Some((kind, len)) => Part::Last(kind, len + 2),
        None => Part::End,
    }
}

/// What stands behind a first capital letter.
pub fn capital_len(rest: &[u8]) -> (Kind, usize)
    ensures { Longest (capital false) rest.now result.0 result.1 }
{
    let mut len = count(Class::Name, rest);
    let mut left = behind(len, rest);
    'parts: loop {
        match part(left) {
            Part::End => return (Kind::Token(TokenKind::Con), len),
            Part::Last(kind, more) => return (kind, len + more),
            Part::More(more) => {
                len += more;
                left = behind(more, left);
            }
        }
    }
}

//! Comments.
ghost use Rattle.std.specs.Prelude.{◌≡◌, ◌≤◌, ◌==◌, ◌&&◌, length, IfSome};
ghost use Rattle.std.specs.List.{prefix_len};
ghost use Rattle.hs_lex.specs.Lexicon.{nested_len, is_dashed, checked};

use crate::class::{Class, begins, count};
use crate::kind::Kind;
use crate::literal::behind;

/// Whether the bytes are `{-`.
fn is_open(first: u8, second: u8) -> bool
    ensures { result ≡ (first == 123 && second == 45) }
{
    first == b'{' && second == b'-'
}

/// Whether the bytes are `-}`.
fn is_close(first: u8, second: u8) -> bool
    ensures { result ≡ (first == 45 && second == 125) }
{
    first == b'-' && second == b'}'
}

/// The length of a nested comment behind its `{-`, if it is closed.
pub fn nested(bytes: &[u8]) -> Option<usize>
    ensures value { result ≡ nested_len 1 bytes.now }
    ensures within { IfSome result (λ len. len ≤ length bytes.now) }
{
    let mut depth: usize = 1;
    let mut len: usize = 0;
    let mut rest = bytes;
    'levels: while depth > 0 {
        let Some((first, tail)) = rest.split_first() else {
            return None;
        };
        let Some((second, after)) = tail.split_first() else {
            return None;
        };
        if is_open(*first, *second) {
            depth += 1;
            len += 2;
            rest = after;
        } else if is_close(*first, *second) {
            depth -= 1;
            len += 2;
            rest = after;
        } else {
            len += 1;
            rest = tail;
        }
    }
    Some(len)
}

/// Whether two dashes or more stand there that no symbol character follows.
pub fn dashed(first: u8, rest: &[u8]) -> bool
    ensures { result ≡ is_dashed first rest.now }
{
    let dashes = count(Class::Dash, rest);
    let marked = begins(Class::Symbol, behind(dashes, rest));
    (first == b'-' && begins(Class::Dash, rest)) && !marked
}

/// The kind of a comment or a literal: broken where it is no UTF-8.
pub fn checked_kind(text: &[u8], kind: Kind) -> Kind
    ensures { result ≡ checked text.now kind }
{
    match std::str::from_utf8(text) {
        Ok(_) => kind,
        Err(_) => Kind::Broken,
    }
}

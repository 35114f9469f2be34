//! The words and marks of a value, and the items of its lists.
ghost use Rattle.std.specs.Prelude.{◌≡◌, ◌≤◌, ◌<◌, ◌+◌, ◌-◌, ◌^◌, ◌∷◌, [], List, ℕ, length, take, drop, IfOk, IfSome, MatchOption};
ghost use Rattle.std.specs.List.{prefix_len};
ghost use Rattle.cabal_text.specs.Lead.{IsUnblank, item_len};
ghost use Rattle.cabal_text.specs.Tokens.{is_blank, is_mark, is_word_char, tokens_of, opening, closing, is_text, depth_after, ends_item, items_at, without_comma};

use crate::characters::is_space;
use bp_base::Bytes;
use std::alloc::{AllocError, Global};

#[tactic(auto, unfolding(crate::specs::Tokens::is_blank))]
pub fn is_blank(b: u8) -> bool
    ensures { result ≡ is_blank b }
{
    is_space(b) || b == b'\n'
}

#[tactic(auto, unfolding(crate::specs::Tokens::is_mark))]
fn is_mark(b: u8) -> bool
    ensures { result ≡ is_mark b }
{
    matches!(b, b',' | b'(' | b')' | b'{' | b'}')
}

#[tactic(auto, unfolding(crate::specs::Tokens::is_word_char))]
fn is_word_char(b: u8) -> bool
    ensures { result ≡ is_word_char b }
{
    !is_blank(b) && !is_mark(b)
}

/// How many characters of a word stand at the front.
fn word_len(text: &[u8]) -> usize
    ensures value { result ≡ prefix_len is_word_char text.now }
    ensures within { result ≤ length text.now }
{
    text.iter().take_while(|b| is_word_char(**b)).count()
}

/// A text from its first token on.
fn skip_blanks(text: &[u8]) -> &[u8]
    ensures same { tokens_of result.now ≡ tokens_of text.now }
    ensures shorter { length result.now ≤ length text.now }
    ensures none { IsUnblank result.now }
{
    let mut rest = text;
    while let [first, after @ ..] = rest {
        if !is_blank(*first) {
            break;
        }
        rest = after;
    }
    rest
}

/// The first token of a text and what comes after it.
fn next_token(text: &[u8]) -> Option<(&[u8], &[u8])>
    ensures token { MatchOption result (tokens_of text.now ≡ []) (λ x. tokens_of text.now ≡ x.0.now ∷ tokens_of x.1.now) }
    ensures shorter { IfSome result (λ x. length x.1.now < length text.now) }
{
    let rest = skip_blanks(text);
    if rest.is_empty() {
        return None;
    }
    Some(rest.split_at(word_len(rest).max(1)))
}

/// The tokens of a value.
pub fn tokens_of(alloc: Global, text: &[u8]) -> Result<Vec<Bytes>, AllocError>
    ensures { IfOk result (λ tokens. tokens.items ≡ tokens_of text.now) }
{
    let mut tokens = Vec::new(alloc);
    let mut rest = text;
    while let Some((token, after)) = next_token(rest) {
        tokens.push(Bytes::from_bytes(alloc, token)?)?;
        rest = after;
    }
    Ok(tokens)
}

/// Between which marks commas end no item.
#[derive(Clone, Copy, Debug)]
pub enum Brackets {
    Round,
    Curly,
}

fn opening(brackets: Brackets) -> &'static [u8]
    ensures { result.now ≡ opening brackets }
{
    match brackets {
        Brackets::Round => b"(",
        Brackets::Curly => b"{",
    }
}

fn closing(brackets: Brackets) -> &'static [u8]
    ensures { result.now ≡ closing brackets }
{
    match brackets {
        Brackets::Round => b")",
        Brackets::Curly => b"}",
    }
}

#[tactic(auto, unfolding(crate::specs::Tokens::depth_after))]
fn depth_after(brackets: Brackets, depth: usize, token: &[u8]) -> usize
    requires { depth < 2 ^ 64 - 1 }
    ensures value { result ≡ depth_after brackets depth token.now }
    ensures within { result ≤ depth + 1 }
{
    if token == opening(brackets) {
        depth + 1
    } else if token == closing(brackets) {
        depth.saturating_sub(1)
    } else {
        depth
    }
}

/// Whether the token is a comma outside brackets.
#[tactic(auto, unfolding(crate::specs::Tokens::ends_item))]
fn ends_item(depth: usize, token: &[u8]) -> bool
    ensures { result ≡ ends_item depth token.now }
{
    depth == 0 && token == b",".as_slice()
}

/// The list without a comma before it.
pub fn without_comma(tokens: &[Bytes]) -> &[Bytes]
    ensures same { result.now ≡ without_comma tokens.now }
    ensures shorter { length result.now ≤ length tokens.now }
{
    match tokens {
        [token, rest @ ..] if token.as_bytes() == b",".as_slice() => rest,
        _ => tokens,
    }
}

/// How many tokens the first item has.
fn item_len(brackets: Brackets, tokens: &[Bytes]) -> usize
    ensures value { result ≡ item_len brackets 0 tokens.now }
    ensures within { result ≤ length tokens.now }
{
    let mut depth = 0;
    for (i, token) in tokens.iter().enumerate() {
        if ends_item(depth, token.as_bytes()) {
            return i;
        }
        depth = depth_after(brackets, depth, token.as_bytes());
    }
    tokens.len()
}

/// The first item of a list and what comes after it and its comma.
pub fn next_item(brackets: Brackets, tokens: &[Bytes]) -> (&[Bytes], &[Bytes])
    requires { 0 < length tokens.now }
    ensures item { items_at brackets 0 tokens.now ≡ result.0.now ∷ items_at brackets 0 result.1.now }
    ensures shorter { length result.1.now < length tokens.now }
{
    let (item, rest) = tokens.split_at(item_len(brackets, tokens));
    (item, without_comma(rest))
}

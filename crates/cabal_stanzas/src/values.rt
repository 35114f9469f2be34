//! Values of the fields of components.
ghost use Rattle.std.specs.Prelude.{◌≡◌, ◌≤◌, List, ℕ, IfOk, length, not};
ghost use Rattle.std.specs.List.{prefix_len, list_all};
ghost use Rattle.cabal_text.specs.Tokens.{is_blank};
ghost use Rattle.cabal_stanzas.specs.Values.{is_range_char, front_len, is_range, may_follow, ranged_name, ranged_names, unblanked, solid_len, source_in, source_name};

use bp_base::{Bytes, Name, Names, Path};
use cabal_text::names::is_dependency;
use cabal_text::tokens::{Brackets, is_blank, next_item, tokens_of, without_comma};
use sqlite_items::Items;
use std::alloc::{AllocError, Global};

#[tactic(auto, unfolding(crate::specs::Values::is_range_char))]
fn is_range_char(b: u8) -> bool
    ensures { result ≡ is_range_char b }
{
    matches!(b, b'<' | b'>' | b'=' | b'^')
}

/// How many characters of a word stand before a range.
fn front_len(word: &[u8]) -> usize
    ensures value { result ≡ front_len word.now }
    ensures within { result ≤ length word.now }
{
    word.iter().take_while(|b| !is_range_char(**b)).count()
}

/// Whether the token begins a range.
fn is_range(token: &[u8]) -> bool
    ensures { result ≡ is_range token.now }
{
    match token {
        [first, ..] => is_range_char(*first) || *first == b'(' || *first == b'-',
        [] => false,
    }
}

/// Whether nothing or a range stands behind a name.
fn may_follow(tokens: &[Bytes]) -> bool
    ensures { result ≡ may_follow tokens.now }
{
    match tokens {
        [token, ..] => is_range(token.as_bytes()),
        [] => true,
    }
}

/// `p` or `p:s`, and then a range or none.
fn ranged_name(alloc: Global, item: &[Bytes]) -> Result<Option<Name>, AllocError>
    ensures { IfOk result (λ found. found ≡ ranged_name item.now) }
{
    let [word, rest @ ..] = item else {
        return Ok(None);
    };
    let word = word.as_bytes();
    let len = front_len(word);
    if is_dependency(&word[..len]) && (len < word.len() || may_follow(rest)) {
        Ok(Some(Name::from_bytes(alloc, &word[..len])?))
    } else {
        Ok(None)
    }
}

/// The dependencies that a value names.
pub fn ranged_names(alloc: Global, value: &[u8]) -> Result<Option<Names>, AllocError>
    ensures { IfOk result (λ found. found ≡ ranged_names value.now) }
{
    let tokens = tokens_of(alloc, value)?;
    let mut names = Items::new(alloc);
    let mut rest = without_comma(&tokens);
    while !rest.is_empty() {
        let (item, after) = next_item(Brackets::Curly, rest);
        let Some(name) = ranged_name(alloc, item)? else {
            return Ok(None);
        };
        names.push(name)?;
        rest = after;
    }
    Ok(Some(names))
}

/// How many characters of white space a text begins with.
fn blank_len(text: &[u8]) -> usize
    ensures value { result ≡ prefix_len is_blank text.now }
    ensures within { result ≤ length text.now }
{
    text.iter().take_while(|b| is_blank(**b)).count()
}

/// How many characters of a text stand before white space.
fn solid_len(text: &[u8]) -> usize
    ensures value { result ≡ solid_len text.now }
    ensures within { result ≤ length text.now }
{
    text.iter().take_while(|b| !is_blank(**b)).count()
}

fn are_blank(text: &[u8]) -> bool
    ensures { result ≡ list_all is_blank text.now }
{
    text.iter().all(|b| is_blank(*b))
}

/// The name of a source file, and nothing else.
pub fn source_name(alloc: Global, value: &[u8]) -> Result<Option<Path>, AllocError>
    ensures { IfOk result (λ found. found ≡ source_name value.now) }
{
    let text = &value[blank_len(value)..];
    let (word, rest) = text.split_at(solid_len(text));
    if word.ends_with(b".hs") && are_blank(rest) {
        Ok(Some(Path::from_bytes(alloc, word)?))
    } else {
        Ok(None)
    }
}

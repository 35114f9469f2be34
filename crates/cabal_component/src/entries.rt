//! The entries of mixins.
ghost use Rattle.std.specs.Prelude.{◌≡◌, ◌≤◌, List, ℕ, None, Some, IfOk, MatchOption, length, map};
ghost use Rattle.cabal_component.specs.Entries.{close_len, bracket_of, word_bracket, news_repeat, olds_repeat, needs_of, mixin_with, entry_of, mixins_of};

use crate::component::{Mixin, Mixins, Provides};
use bp_base::{Bytes, Name, Names, Rename, Renames};
use cabal_text::names::{is_dependency, names_of, renames_of};
use cabal_text::seen::repeats;
use cabal_text::tokens::{Brackets, next_item, tokens_of, without_comma};
use sqlite_items::Items;
use std::alloc::{AllocError, Global};

/// How many tokens stand before the closing bracket.
fn close_len(tokens: &[Bytes]) -> usize
    ensures value { result ≡ close_len tokens.now }
    ensures within { result ≤ length tokens.now }
{
    for (i, token) in tokens.iter().enumerate() {
        if token.as_bytes() == b")".as_slice() {
            return i;
        }
    }
    tokens.len()
}

/// What stands in brackets, and what comes after them.
fn bracket_of(tokens: &[Bytes]) -> Option<(&[Bytes], &[Bytes])>
    ensures { MatchOption result (bracket_of tokens.now ≡ None) (λ x. bracket_of tokens.now ≡ Some (x.0.now, x.1.now)) }
{
    let [token, rest @ ..] = tokens else {
        return None;
    };
    let len = close_len(rest);
    if token.as_bytes() == b"(".as_slice() && len < rest.len() {
        Some((&rest[..len], &rest[len + 1..]))
    } else {
        None
    }
}

/// The same behind a word.
fn word_bracket<'a>(word: &[u8], tokens: &'a [Bytes]) -> Option<(&'a [Bytes], &'a [Bytes])>
    ensures { MatchOption result (word_bracket word.now tokens.now ≡ None) (λ x. word_bracket word.now tokens.now ≡ Some (x.0.now, x.1.now)) }
{
    let [token, rest @ ..] = tokens else {
        return None;
    };
    if token.as_bytes() == word {
        bracket_of(rest)
    } else {
        None
    }
}

/// The new names of renamings.
pub fn new_names(alloc: Global, renames: &[Rename]) -> Result<Names, AllocError>
    ensures { IfOk result (λ names. names ≡ map (λ r. r.to) renames.now) }
{
    let mut names = Items::new(alloc);
    for rename in renames {
        names.push(rename.to.copied(alloc)?)?;
    }
    Ok(names)
}

/// The old names of renamings.
pub fn old_names(alloc: Global, renames: &[Rename]) -> Result<Names, AllocError>
    ensures { IfOk result (λ names. names ≡ map (λ r. r.from) renames.now) }
{
    let mut names = Items::new(alloc);
    for rename in renames {
        names.push(rename.from.copied(alloc)?)?;
    }
    Ok(names)
}

/// Whether two have one new name.
fn news_repeat(alloc: Global, renames: &Renames) -> Result<bool, AllocError>
    ensures { IfOk result (λ found. found ≡ news_repeat renames.now) }
{
    let names = new_names(alloc, renames.as_slice())?;
    repeats(alloc, names.as_slice())
}

/// Whether two have one old name.
fn olds_repeat(alloc: Global, renames: &Renames) -> Result<bool, AllocError>
    ensures { IfOk result (λ found. found ≡ olds_repeat renames.now) }
{
    let names = old_names(alloc, renames.as_slice())?;
    repeats(alloc, names.as_slice())
}

/// Nothing, or `requires` and renames in brackets.
fn needs_of(alloc: Global, tokens: &[Bytes]) -> Result<Option<Renames>, AllocError>
    ensures { IfOk result (λ found. found ≡ needs_of tokens.now) }
{
    if tokens.is_empty() {
        return Ok(Some(Items::new(alloc)));
    }
    let Some((inner, after)) = word_bracket(b"requires", tokens) else {
        return Ok(None);
    };
    if !after.is_empty() {
        return Ok(None);
    }
    let Some(needs) = renames_of(alloc, inner)? else {
        return Ok(None);
    };
    if olds_repeat(alloc, &needs)? {
        return Ok(None);
    }
    Ok(Some(needs))
}

fn mixin_with(
    alloc: Global,
    dep: &Bytes,
    provides: Provides,
    rest: &[Bytes],
) -> Result<Option<Mixin>, AllocError>
    ensures { IfOk result (λ found. found ≡ mixin_with dep.now provides rest.now) }
{
    let Some(needs) = needs_of(alloc, rest)? else {
        return Ok(None);
    };
    let dep = Name::from_bytes(alloc, dep.as_bytes())?;
    Ok(Some(Mixin {
        dep,
        provides,
        needs,
    }))
}

/// An entry: a dependency, what it brings and what it needs.
fn entry_of(alloc: Global, item: &[Bytes]) -> Result<Option<Mixin>, AllocError>
    ensures { IfOk result (λ found. found ≡ entry_of item.now) }
{
    let [dep, rest @ ..] = item else {
        return Ok(None);
    };
    if !is_dependency(dep.as_bytes()) {
        return Ok(None);
    }
    if let Some((inner, after)) = bracket_of(rest) {
        let Some(items) = renames_of(alloc, inner)? else {
            return Ok(None);
        };
        if news_repeat(alloc, &items)? {
            return Ok(None);
        }
        return mixin_with(alloc, dep, Provides::Listed { items }, after);
    }
    if let Some((inner, after)) = word_bracket(b"hiding", rest) {
        let Some(names) = names_of(alloc, inner)? else {
            return Ok(None);
        };
        return mixin_with(alloc, dep, Provides::Hiding { names }, after);
    }
    mixin_with(alloc, dep, Provides::Whole, rest)
}

/// The entries of a value.
pub fn mixins_of(alloc: Global, value: &[u8]) -> Result<Option<Mixins>, AllocError>
    ensures { IfOk result (λ found. found ≡ mixins_of value.now) }
{
    let tokens = tokens_of(alloc, value)?;
    let mut mixins = Items::new(alloc);
    let mut rest = without_comma(&tokens);
    while !rest.is_empty() {
        let (item, after) = next_item(Brackets::Round, rest);
        let Some(mixin) = entry_of(alloc, item)? else {
            return Ok(None);
        };
        mixins.push(mixin)?;
        rest = after;
    }
    Ok(Some(mixins))
}

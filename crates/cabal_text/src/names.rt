//! Names of dependencies, and lists of names of modules.
ghost use Rattle.std.specs.Prelude.{◌≡◌, ◌≤◌, List, ℕ, IfOk, length};
ghost use Rattle.bp_base.specs.Names.{colon_place, is_module_name, is_package_name};
ghost use Rattle.cabal_text.specs.Names.{is_dependency, rename, rename_of, renames_of, name_of, names_of, module_name, module_names};

use crate::fields;
use crate::tokens::{Brackets, next_item, without_comma};
use bp_base::{Bytes, Name, Names, Rename, Renames, is_module_name, is_package_name};
use sqlite_items::Items;
use std::alloc::{AllocError, Global};

/// How many characters stand before the first colon.
fn colon_len(text: &[u8]) -> usize
    ensures value { result ≡ colon_place text.now }
    ensures within { result ≤ length text.now }
{
    for (i, b) in text.iter().enumerate() {
        if *b == b':' {
            return i;
        }
    }
    text.len()
}

/// `p` or `p:s`.
#[tactic(auto, unfolding(crate::specs::Names::is_dependency))]
pub fn is_dependency(text: &[u8]) -> bool
    ensures { result ≡ is_dependency text.now }
{
    let len = colon_len(text);
    if !is_package_name(&text[..len]) {
        return false;
    }
    len == text.len() || is_package_name(&text[len + 1..])
}

fn make_rename(alloc: Global, from: &Bytes, to: &Bytes) -> Result<Rename, AllocError>
    ensures { IfOk result (λ r. r ≡ rename from.now to.now) }
{
    Ok(Rename {
        from: Name::from_bytes(alloc, from.as_bytes())?,
        to: Name::from_bytes(alloc, to.as_bytes())?,
    })
}

/// `A` or `A as B`.
fn rename_of(alloc: Global, item: &[Bytes]) -> Result<Option<Rename>, AllocError>
    ensures { IfOk result (λ found. found ≡ rename_of item.now) }
{
    match item {
        [from] if is_module_name(from.as_bytes()) => Ok(Some(make_rename(alloc, from, from)?)),
        [from, word, to]
            if is_module_name(from.as_bytes())
                && word.as_bytes() == b"as".as_slice()
                && is_module_name(to.as_bytes()) => { Ok(Some(make_rename(alloc, from, to)?)) },
        _ => Ok(None),
    }
}

/// Renames between commas.
pub fn renames_of(alloc: Global, tokens: &[Bytes]) -> Result<Option<Renames>, AllocError>
    ensures { IfOk result (λ found. found ≡ renames_of tokens.now) }
{
    let mut renames = Items::new(alloc);
    let mut rest = without_comma(tokens);
    while !rest.is_empty() {
        let (item, after) = next_item(Brackets::Round, rest);
        let Some(rename) = rename_of(alloc, item)? else {
            return Ok(None);
        };
        renames.push(rename)?;
        rest = after;
    }
    Ok(Some(renames))
}

/// A module's name alone.
fn name_of(alloc: Global, item: &[Bytes]) -> Result<Option<Name>, AllocError>
    ensures { IfOk result (λ found. found ≡ name_of item.now) }
{
    match item {
        [name] if is_module_name(name.as_bytes()) => {
            Ok(Some(Name::from_bytes(alloc, name.as_bytes())?))
        },
        _ => Ok(None),
    }
}

/// Module names between commas.
pub fn names_of(alloc: Global, tokens: &[Bytes]) -> Result<Option<Names>, AllocError>
    ensures { IfOk result (λ found. found ≡ names_of tokens.now) }
{
    let mut names = Items::new(alloc);
    let mut rest = without_comma(tokens);
    while !rest.is_empty() {
        let (item, after) = next_item(Brackets::Round, rest);
        let Some(name) = name_of(alloc, item)? else {
            return Ok(None);
        };
        names.push(name)?;
        rest = after;
    }
    Ok(Some(names))
}

/// Module names between spaces and commas.
pub fn module_names(alloc: Global, value: &[u8]) -> Result<Option<Names>, AllocError>
    ensures { IfOk result (λ found. found ≡ module_names value.now) }
{
    let mut names = Items::new(alloc);
    let mut rest = value;
    while let Some((item, after)) = fields::next_item(rest) {
        if !is_module_name(item) {
            return Ok(None);
        }
        names.push(Name::from_bytes(alloc, item)?)?;
        rest = after;
    }
    Ok(Some(names))
}

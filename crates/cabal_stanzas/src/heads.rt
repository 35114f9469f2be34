//! The package's name, and the heads of stanzas.
ghost use Rattle.std.specs.Prelude.{◌≡◌, List, ℕ, IfOk};
ghost use Rattle.cabal_text.specs.Least.{least_of};
ghost use Rattle.cabal_stanzas.specs.declared.heads.Head.TheVariants.{Component};
ghost use Rattle.cabal_stanzas.specs.Heads.{is_name_value, bad_name, refused_names, leading, package_of, is_ignored, library_head, executable_head, head_words, head_of, head_at, library_name, component_name};

use crate::stanzas::{Field, is_named, line_named, value_named};
use crate::table::Kind;
use bp_base::{Bytes, Name, is_package_name};
use cabal_text::fields::{field_of, first_word, is_word};
use cabal_text::least::sooner;
use cabal_text::lines::Line;
use cabal_text::tokens::tokens_of;
use std::alloc::{AllocError, Global};

/// What the head of a stanza begins.
#[derive(Debug, Drop)]
pub enum Head {
    /// A component of a kind; the package's own library has the empty name.
    Component { kind: Kind, name: Name },
    Common,
    Ignored,
    Other,
}

/// Whether the tokens are a package's name and nothing else.
fn is_name_value(tokens: &[Bytes]) -> bool
    ensures { result ≡ is_name_value tokens.now }
{
    match tokens {
        [name] => is_package_name(name.as_bytes()),
        _ => false,
    }
}

/// The line of a field without a package's name as its value.
fn bad_name(alloc: Global, field: &Field) -> Result<Option<u64>, AllocError>
    ensures { IfOk result (λ line. line ≡ least_of (bad_name field.now)) }
{
    let tokens = tokens_of(alloc, field.value.as_bytes())?;
    if is_name_value(&tokens) {
        Ok(None)
    } else {
        Ok(Some(field.line))
    }
}

/// The first line that is refused for the package's name.
#[tactic(auto, using(cabal_text::proofs::SoonerLemmas::least_append))]
pub fn name_line(alloc: Global, fields: &[Field]) -> Result<Option<u64>, AllocError>
    ensures { IfOk result (λ line. line ≡ least_of (refused_names fields.now)) }
{
    let mut rest = fields;
    while let [field, after @ ..] = rest {
        if is_named(b"name", field) {
            let bad = bad_name(alloc, field)?;
            return Ok(sooner(bad, line_named(b"name", after)));
        }
        rest = after;
    }
    Ok(Some(1))
}

/// Whether a stanza is read over.
#[tactic(auto, unfolding(crate::specs::Heads::is_ignored))]
fn is_ignored(word: &[u8]) -> bool
    ensures { result ≡ is_ignored word.now }
{
    is_word(word, b"flag")
        || is_word(word, b"source-repository")
        || is_word(word, b"test-suite")
        || is_word(word, b"benchmark")
        || is_word(word, b"custom-setup")
        || is_word(word, b"foreign-library")
}

/// The head of a component.
fn component_head(alloc: Global, kind: Kind, name: &[u8]) -> Result<Head, AllocError>
    ensures { IfOk result (λ head. head ≡ Component kind name.now) }
{
    Ok(Head::Component {
        kind,
        name: Name::from_bytes(alloc, name)?,
    })
}

fn library_head(alloc: Global, words: &[Bytes]) -> Result<Head, AllocError>
    ensures { IfOk result (λ head. head ≡ library_head words.now) }
{
    match words {
        [] => component_head(alloc, Kind::Library, b""),
        [name] if is_package_name(name.as_bytes()) => {
            component_head(alloc, Kind::Library, name.as_bytes())
        },
        _ => Ok(Head::Other),
    }
}

fn executable_head(alloc: Global, words: &[Bytes]) -> Result<Head, AllocError>
    ensures { IfOk result (λ head. head ≡ executable_head words.now) }
{
    match words {
        [name] if is_package_name(name.as_bytes()) => {
            component_head(alloc, Kind::Executable, name.as_bytes())
        },
        _ => Ok(Head::Other),
    }
}

/// The words of a head: the first one ends at a space.
#[tactic(auto, using(crate::proofs::HeadLemmas::first_word_within))]
fn head_words(alloc: Global, text: &[u8]) -> Result<Vec<Bytes>, AllocError>
    ensures { IfOk result (λ words. words.items ≡ head_words text.now) }
{
    let first = first_word(text);
    let mut words = Vec::new(alloc);
    words.push(Bytes::from_bytes(alloc, first)?)?;
    words.append(&mut tokens_of(alloc, &text[first.len()..])?)?;
    Ok(words)
}

/// What the words of a head begin.
fn head_of(alloc: Global, words: &[Bytes]) -> Result<Head, AllocError>
    ensures { IfOk result (λ head. head ≡ head_of words.now) }
{
    let [word, rest @ ..] = words else {
        return Ok(Head::Other);
    };
    let word = word.as_bytes();
    if is_word(word, b"library") {
        return library_head(alloc, rest);
    }
    if is_word(word, b"executable") {
        return executable_head(alloc, rest);
    }
    if is_word(word, b"common") {
        return Ok(Head::Common);
    }
    if is_ignored(word) {
        Ok(Head::Ignored)
    } else {
        Ok(Head::Other)
    }
}

/// The head that a line of indent 0 is; none where it is a field.
pub fn head_at(alloc: Global, line: &Line) -> Result<Option<Head>, AllocError>
    ensures { IfOk result (λ head. head ≡ head_at line.now) }
{
    if field_of(line.text.as_bytes()).is_some() {
        return Ok(None);
    }
    let words = head_words(alloc, line.text.as_bytes())?;
    Ok(Some(head_of(alloc, &words)?))
}

/// The first word, or nothing.
fn leading(words: &[Bytes]) -> &[u8]
    ensures { result.now ≡ leading words.now }
{
    match words {
        [word, ..] => word.as_bytes(),
        [] => b"",
    }
}

/// The package's name, of the top-level fields.
pub fn package_of(alloc: Global, fields: &[Field]) -> Result<Name, AllocError>
    ensures { IfOk result (λ name. name ≡ package_of fields.now) }
{
    let words = tokens_of(alloc, value_named(b"name", fields))?;
    Name::from_bytes(alloc, leading(&words))
}

/// The name of a library of a package.
pub fn library_name(alloc: Global, owner: &[u8], name: &[u8]) -> Result<Name, AllocError>
    ensures { IfOk result (λ found. found ≡ library_name owner.now name.now) }
{
    let mut text = owner.to_vec(alloc)?;
    if !name.is_empty() {
        text.push(b':')?;
        text.extend_from_slice(name)?;
    }
    Ok(Name::from_vec(text))
}

/// The name of a component.
pub fn component_name(
    alloc: Global,
    owner: &[u8],
    kind: Kind,
    name: &[u8],
) -> Result<Name, AllocError>
    ensures { IfOk result (λ found. found ≡ component_name owner.now kind name.now) }
{
    match kind {
        Kind::Library => library_name(alloc, owner, name),
        Kind::Executable => {
            let mut text = owner.to_vec(alloc)?;
            text.extend_from_slice(b":exe:")?;
            text.extend_from_slice(name)?;
            Ok(Name::from_vec(text))
        }
    }
}

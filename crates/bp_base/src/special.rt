//! Names with a syntax of their own, which no module declares.
ghost use Rattle.std.specs.Prelude.{◌≡◌, ◌≢◌, ◌∷◌, ◌++◌, [], ◌<◌, ℕ, List, codes, replicate, IfOk, IsTrue, MatchOption};
ghost use Rattle.bp_base.specs.declared.special.Special.TheVariants.{Arrow, Cons};
ghost use Rattle.bp_base.specs.Specials.{base_prelude, is_special, special_name, special_text};

use crate::{Ident, Name, OrigName, Space, Unit};
use sqlite_items::{Boxed, Items};
use std::alloc::{AllocError, Global};

/// A type or a value that is written by syntax alone (`gtycon` and `gcon` of the Haskell 2010 Report, sections 4.1.2 and 3.2). They
/// stand at the module `Prelude` of the component `base`, under the text that the report gives them.
#[derive(Clone, Copy, Debug, PartialEq, Eq)]
pub enum Special {
    /// `->`, of types alone.
    Arrow,
    /// `[]`: the type of lists, and the empty list.
    List,
    /// `()`: a type, and its value.
    Unit,
    /// `(,)` and so on: a type, and its constructor. There are those of 2 to 15 parts.
    Tuple { parts: usize },
    /// `:`, of values alone.
    Cons,
}

/// The text of a special name. A tuple's has one comma fewer than it has parts.
pub fn special_text(alloc: Global, special: Special) -> Result<Name, AllocError>
    ensures { IfOk result (λ r. r ≡ special_text special) }
{
    match special {
        Special::Arrow => Name::from_bytes(alloc, b"->"),
        Special::List => Name::from_bytes(alloc, b"[]"),
        Special::Unit => Name::from_bytes(alloc, b"()"),
        Special::Tuple { parts } => tuple_text(alloc, parts.saturating_sub(1)),
        Special::Cons => Name::from_bytes(alloc, b":"),
    }
}

/// So many commas between brackets.
fn tuple_text(alloc: Global, commas: usize) -> Result<Name, AllocError>
    ensures { IfOk result (λ r. r ≡ 40 ∷ (replicate commas 44 ++ 41 ∷ [])) }
{
    let mut text = Vec::from_slice(alloc, b"(")?;
    for i in 0..commas {
        text.push(b',')?;
    }
    text.push(b')')?;
    Ok(Name::from_vec(text))
}

fn after(byte: u8, text: &[u8]) -> Option<&[u8]>
    ensures { MatchOption result ((rest : List ℕ) → text.now ≢ byte ∷ rest) (λ rest. text.now ≡ byte ∷ rest.now) }
{
    match text {
        [first, rest @ ..] if *first == byte => Some(rest),
        _ => None,
    }
}

/// How many commas stand before the `)` that is the rest of a text.
fn commas_before_bracket(text: &[u8]) -> Option<usize>
    ensures { MatchOption result ((n : ℕ) → text.now ≢ replicate n 44 ++ 41 ∷ []) (λ n. text.now ≡ replicate n 44 ++ 41 ∷ []) }
{
    let mut commas = 0;
    let mut rest = text;
    'commas: while let Some(more) = after(b',', rest) {
        commas += 1;
        rest = more;
    }
    if rest == b")".as_slice() {
        Some(commas)
    } else {
        None
    }
}

/// The special name with so many commas between brackets.
fn with_commas(commas: usize) -> Option<Special>
    ensures { MatchOption result (14 < commas) (λ s. ((space : _) → IsTrue (is_special space s)) × (special_text s ≡ 40 ∷ (replicate commas 44 ++ 41 ∷ []))) }
{
    match commas {
        0 => Some(Special::Unit),
        1..=14 => Some(Special::Tuple { parts: commas + 1 }),
        _ => None,
    }
}

/// The special name that begins with a bracket, which is there for types and for values.
fn bracketed(rest: &[u8]) -> Option<Special>
    ensures { MatchOption result ((space : _) (s : _) → IsTrue (is_special space s) → 40 ∷ rest.now ≢ special_text s)
        (λ s. ((space : _) → IsTrue (is_special space s)) × (40 ∷ rest.now ≡ special_text s)) }
{
    match commas_before_bracket(rest) {
        Some(commas) => with_commas(commas),
        None => None,
    }
}

/// The special name without a round bracket.
fn symbolic(space: Space, text: &[u8]) -> Option<Special>
    requires { (rest : List ℕ) → text.now ≢ 40 ∷ rest }
    ensures { MatchOption result ((s : _) → IsTrue (is_special space s) → text.now ≢ special_text s) (λ s. IsTrue (is_special space s) × (text.now ≡ special_text s)) }
{
    if text == b"[]".as_slice() {
        return Some(Special::List);
    }
    match space {
        Space::Types => arrow(text),
        Space::Values => cons(text),
    }
}

fn arrow(text: &[u8]) -> Option<Special>
    ensures { MatchOption result (text.now ≢ codes "->") (λ s. (s ≡ Arrow) × (text.now ≡ codes "->")) }
{
    if text == b"->".as_slice() {
        Some(Special::Arrow)
    } else {
        None
    }
}

fn cons(text: &[u8]) -> Option<Special>
    ensures { MatchOption result (text.now ≢ codes ":") (λ s. (s ≡ Cons) × (text.now ≡ codes ":")) }
{
    if text == b":".as_slice() {
        Some(Special::Cons)
    } else {
        None
    }
}

/// The special name of the space that has this text. It takes no memory.
pub fn special_of(space: Space, text: &[u8]) -> Option<Special>
    ensures { MatchOption result ((s : _) → IsTrue (is_special space s) → text.now ≢ special_text s) (λ s. IsTrue (is_special space s) × (text.now ≡ special_text s)) }
{
    match after(b'(', text) {
        Some(rest) => bracketed(rest),
        None => symbolic(space, text),
    }
}

/// The module that special names, and all that `base` declares, stand at.
pub fn base_prelude(alloc: Global) -> Result<Ident, AllocError>
    ensures { IfOk result (λ r. r ≡ base_prelude) }
{
    let unit = Unit {
        component: Name::from_bytes(alloc, b"base")?,
        fills: Items::new(alloc),
    };
    Ok(Ident::Module {
        unit: Boxed::new(alloc, unit)?,
        module: Name::from_bytes(alloc, b"Prelude")?,
    })
}

/// The original name of a special name.
pub fn special_name(alloc: Global, space: Space, special: Special) -> Result<OrigName, AllocError>
    ensures { IfOk result (λ r. r ≡ special_name space special) }
{
    Ok(OrigName {
        at: base_prelude(alloc)?,
        space,
        occ: special_text(alloc, special)?,
    })
}

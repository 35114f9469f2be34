//! Lists in round brackets (Haskell 2010 Report, sections 5.2 and 5.3).
ghost use Rattle.std.specs.Prelude.{◌≡◌, ◌∷◌, Bool, false, true, List};
ghost use Rattle.hs_forms.specs.Reading.{begins};
ghost use Rattle.hs_readers.specs.Answers.{Answers};
ghost use Rattle.hs_headers.specs.Lists.{Element, element_form, listed_form, flat};

use crate::leaf::after_comma;
use hs_forms::Fault;
use hs_readers::{Read, after_right_paren};
use hs_tokens::Terminal;
use sqlite_items::Items;
use std::alloc::Global;

/// What may be a part of a list in round brackets.
pub trait Listed: Sized + Drop {
    ghost element: { Element Self };

    /// Whether a part begins here.
    fn begins_part(tokens: &[Terminal]) -> bool
        ensures { result ≡ begins element.starter tokens.now };

    /// The part at the front.
    fn read_part(alloc: Global, tokens: &[Terminal]) -> Result<Read<'_, Self>, Fault>
        ensures { Answers (flat (element_form element)) tokens.now result };
}

/// A list behind its `(`, with its `)`. A comma may stand before the `)`, or alone, only if `trailing` says so.
pub fn read_listed<P: Listed>(
    alloc: Global,
    tokens: &[Terminal],
    trailing: bool,
) -> Result<Read<'_, (Items<P>, bool)>, Fault>
    ensures { Answers (flat (listed_form P.element trailing)) tokens.now result }
{
    if P::begins_part(tokens) {
        read_some(alloc, tokens, trailing)
    } else {
        read_none(alloc, tokens, trailing)
    }
}

/// A list without parts.
fn read_none<P: Listed>(
    alloc: Global,
    tokens: &[Terminal],
    trailing: bool,
) -> Result<Read<'_, (Items<P>, bool)>, Fault>
    requires { begins P.element.starter tokens.now ≡ false }
    ensures { Answers (flat (listed_form P.element trailing)) tokens.now result }
{
    if let Some(rest) = after_right_paren(tokens) {
        let tree = (Items::new(alloc), false);
        return Ok(Read {
            tree,
            rest,
            depth: 0,
        });
    }
    if !trailing {
        return Err(Fault::At(tokens.len()));
    }
    let Some(next) = after_comma(tokens) else {
        return Err(Fault::At(tokens.len()));
    };
    match after_right_paren(next) {
        Some(rest) => {
            let tree = (Items::new(alloc), true);
            Ok(Read {
                tree,
                rest,
                depth: 0,
            })
        }
        None => Err(Fault::At(next.len())),
    }
}

/// A list with parts.
fn read_some<P: Listed>(
    alloc: Global,
    tokens: &[Terminal],
    trailing: bool,
) -> Result<Read<'_, (Items<P>, bool)>, Fault>
    requires { begins P.element.starter tokens.now ≡ true }
    ensures { Answers (flat (listed_form P.element trailing)) tokens.now result }
{
    let mut parts = Items::new(alloc);
    let mut here = tokens;
    'parts: while P::begins_part(here) {
        let part = P::read_part(alloc, here)?;
        let behind = part.rest;
        parts.push(part.tree)?;
        let Some(next) = after_comma(behind) else {
            let Some(rest) = after_right_paren(behind) else {
                return Err(Fault::At(behind.len()));
            };
            let tree = (parts, false);
            return Ok(Read {
                tree,
                rest,
                depth: 0,
            });
        };
        here = next;
    }
    if !trailing {
        return Err(Fault::At(here.len()));
    }
    let Some(rest) = after_right_paren(here) else {
        return Err(Fault::At(here.len()));
    };
    let tree = (parts, true);
    Ok(Read {
        tree,
        rest,
        depth: 0,
    })
}

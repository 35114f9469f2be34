//! Written types put together.
ghost use Rattle.std.specs.Prelude.{◌≡◌, suc, IfOk};
ghost use Rattle.bp_base.specs.declared.special.Special.TheVariants.{Tuple};
ghost use Rattle.hs_core.specs.declared.tree.Written.TheVariants.{WApp};
ghost use Rattle.hs_scopes.specs.Types.{arrow_to};
ghost use Rattle.type_resolve.specs.Found.{arrow_chain, special_type};

use bp_base::{Space, Special, special_name};
use hs_core::Written;
use sqlite_items::{Boxed, Items};
use std::alloc::{AllocError, Global};

/// A type with a syntax of its own.
pub fn special_type(alloc: Global, special: Special) -> Result<Written, AllocError>
    ensures { IfOk result (λ w. w ≡ special_type special) }
{
    Ok(Written::WCon {
        name: special_name(alloc, Space::Types, special)?,
    })
}

/// The type of tuples with so many commas; what has no number has no room in memory.
pub fn tuple_type(alloc: Global, commas: usize) -> Result<Written, AllocError>
    ensures { IfOk result (λ w. w ≡ special_type (Tuple (suc commas))) }
{
    match commas.checked_add(1) {
        Some(parts) => special_type(alloc, Special::Tuple { parts }),
        None => Err(AllocError),
    }
}

/// A type with one more argument.
pub fn applied(alloc: Global, fun: Written, arg: Written) -> Result<Written, AllocError>
    ensures { IfOk result (λ w. w ≡ WApp fun arg) }
{
    Ok(Written::WApp {
        fun: Boxed::new(alloc, fun)?,
        arg: Boxed::new(alloc, arg)?,
    })
}

fn arrow_to(alloc: Global, from: Written, to: Written) -> Result<Written, AllocError>
    ensures { IfOk result (λ w. w ≡ arrow_to from to) }
{
    let arrow = special_type(alloc, Special::Arrow)?;
    let fun = applied(alloc, arrow, from)?;
    applied(alloc, fun, to)
}

/// The types in a row with arrows between them, which group to the right.
#[tactic(auto, using(crate::proofs::LayerLemmas::arrow_steps))]
pub fn arrow_chain(
    alloc: Global,
    first: Written,
    rest: Items<Written>,
) -> Result<Written, AllocError>
    ensures { IfOk result (λ w. w ≡ arrow_chain first rest) }
{
    let mut before = rest;
    let Some(last) = before.pop() else {
        return Ok(first);
    };
    let mut to = last;
    'arrows: while let Some(from) = before.pop() {
        to = arrow_to(alloc, from, to)?;
    }
    arrow_to(alloc, first, to)
}

//! The answer: what is built for the class of each hole.
ghost use Rattle.std.specs.Prelude.{◌≡◌, ℕ, ◌<◌, ◌≤◌, [], length, map, drop, get_or, Some, None, IfOk, OnOk};
ghost use Rattle.bp_base.specs.declared.ident.Ident.TheVariants.{Hole};
ghost use Rattle.bp_base.specs.Texts.{Rise};
ghost use Rattle.ident_table.specs.Numbers.{ident_of, fills_of, AreFillsBelow};
ghost use Rattle.hole_unify.specs.Table.{is_same, nodes_of};
ghost use Rattle.hole_unify.specs.Build.{number_built, built_of, AreBuiltBelow, term_put, answer};
ghost use Rattle.hole_unify.specs.Stages.{number_place, is_first, Puts};

use crate::lookup::{hole_name, is_before};
use bp_base::Name;
use ident_table::{IdentTable, NumberFill, NumberFills};
use std::alloc::{AllocError, Global};

/// How many fills come before a hole, by halves.
fn place_of(fills: &[NumberFill], hole: &Name) -> usize
    requires { Rise (map (λ f. f.hole) fills.now) }
    ensures { result ≡ number_place hole.now fills.now }
{
    let mut low = 0;
    let mut high = fills.len();
    while low < high {
        let middle = low + (high - low) / 2;
        if is_before(&fills[middle].hole, hole) {
            low = middle + 1;
        } else {
            high = middle;
        }
    }
    low
}

/// Whether the fill at a place is of the hole.
fn is_hole_at(fills: &[NumberFill], at: usize, hole: &Name) -> bool
    ensures { result ≡ is_first hole.now (drop at fills.now) }
{
    at < fills.len() && fills[at].hole == *hole
}

/// Puts a fill for the hole among the others, unless it is there.
fn put_fill(
    alloc: Global,
    hole: &Name,
    ident: usize,
    fills: &mut Vec<NumberFill>,
) -> Result<(), AllocError>
    requires { Rise (map (λ f. f.hole) fills.old.items) }
    ensures { OnOk result (Puts (record { hole = hole.now; ident = ident }) fills.old.items fills.new.items) }
{
    let at = place_of(fills.as_slice(), hole);
    if is_hole_at(fills.as_slice(), at, hole) {
        return Ok(());
    }
    let fill = NumberFill {
        hole: hole.copied(alloc)?,
        ident,
    };
    fills.insert(at, fill)?;
    Ok(())
}

/// Whether an identity is the hole.
fn is_hole_of(table: &IdentTable, number: usize, hole: &Name) -> bool
    requires { number < length table.now }
    ensures { result ≡ is_same (ident_of table.now number) (Hole hole.now) }
{
    match hole_name(table, number) {
        Some(name) => *name == *hole,
        None => false,
    }
}

/// Puts a fill for a hole among the others, unless it is the hole itself or is there.
fn put_built(
    alloc: Global,
    table: &IdentTable,
    number: usize,
    built: Option<usize>,
    fills: &mut Vec<NumberFill>,
) -> Result<(), AllocError>
    requires number { number < length table.now }
    requires built { (k : ℕ) → built ≡ Some k → k < length table.now }
    requires rise { Rise (map (λ f. f.hole) fills.old.items) }
    requires below { AreFillsBelow (length table.now) fills.old.items }
    ensures fills { OnOk result (fills_of table.now fills.new.items ≡ term_put (ident_of table.now number) (number_built table.now built) (fills_of table.now fills.old.items)) }
    ensures rise { OnOk result (Rise (map (λ f. f.hole) fills.new.items)) }
    ensures below { OnOk result (AreFillsBelow (length table.now) fills.new.items) }
{
    if let Some(hole) = hole_name(table, number) {
        if let Some(ident) = built {
            if !is_hole_of(table, ident, hole) {
                put_fill(alloc, hole, ident, fills)?;
            }
        }
    }
    Ok(())
}

/// What is built for a class.
fn built_at(built: &[Option<usize>], class: usize) -> Option<usize>
    ensures { result ≡ get_or built.now class None }
{
    if class < built.len() {
        built[class]
    } else {
        None
    }
}

/// The fills of the holes that have classes, in order of their holes.
pub fn list_answer(
    alloc: Global,
    table: &IdentTable,
    classes: &[usize],
    built: &[Option<usize>],
) -> Result<NumberFills, AllocError>
    requires length { length classes.now ≤ length table.now }
    requires below { AreBuiltBelow (length table.now) built.now }
    ensures fills { IfOk result (λ r. fills_of table.now r ≡ answer (built_of table.now built.now) (nodes_of table.now classes.now) []) }
    ensures below { IfOk result (λ r. AreFillsBelow (length table.now) r) }
{
    let mut fills = Vec::new(alloc);
    for (number, class) in classes.iter().enumerate() {
        put_built(alloc, table, number, built_at(built, *class), &mut fills)?;
    }
    Ok(NumberFills::from_vec(fills))
}

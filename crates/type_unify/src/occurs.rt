//! Whether an unknown occurs in a type with all bindings applied.
ghost use Rattle.std.specs.Prelude.{◌≡◌, ◌<◌, ◌++◌, ◌∷◌, [], length, IfOk, OnOk};
ghost use Rattle.type_terms.specs.Terms.{occurs_in};
ghost use Rattle.type_unify.specs.Cells.{seen, IsTable};
ghost use Rattle.type_unify.specs.Stacks.{Looks};

use crate::cell::Cell;
use crate::walk::walk;
use indexmap::IndexMap;
use std::alloc::{AllocError, Global};

// Both parts of an application go onto the stack.
fn push_both(stack: &mut Vec<usize>, first: usize, second: usize) -> Result<(), AllocError>
    ensures { OnOk result (stack.new.items ≡ stack.old.items ++ first ∷ second ∷ []) }
{
    stack.push(first)?;
    stack.push(second)?;
    Ok(())
}

// Whether the type of one number is the unknown; if it isn't, its parts go onto the stack.
fn look(
    cells: &[Cell],
    entries: &IndexMap<u64, usize>,
    id: u64,
    at: usize,
    stack: &mut Vec<usize>,
) -> Result<bool, AllocError>
    requires stands { IsTable cells.now entries.now.entries }
    requires within { at < length cells.now }
    ensures { IfOk result (λ r. Looks (seen cells.now entries.now.entries) (length cells.now) id at stack.old.items stack.new.items r) }
{
    let end = walk(cells, entries, at);
    match &cells[end] {
        Cell::Flex { id: other } => Ok(id == *other),
        Cell::Rigid { .. } => Ok(false),
        Cell::Con { .. } => Ok(false),
        Cell::App { fun, arg } => {
            push_both(stack, *arg, *fun)?;
            Ok(false)
        }
    }
}

/// Whether an unknown occurs in the type of a number with all bindings applied.
pub fn occurs(
    alloc: Global,
    cells: &[Cell],
    entries: &IndexMap<u64, usize>,
    id: u64,
    at: usize,
) -> Result<bool, AllocError>
    requires stands { IsTable cells.now entries.now.entries }
    requires within { at < length cells.now }
    ensures { IfOk result (λ r. r ≡ occurs_in id (seen cells.now entries.now.entries at)) }
{
    let mut stack = Vec::new(alloc);
    stack.push(at)?;
    while let Some(next) = stack.pop() {
        if look(cells, entries, id, next, &mut stack)? {
            return Ok(true);
        }
    }
    Ok(false)
}

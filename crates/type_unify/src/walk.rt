//! Walks from an unknown to what it is bound to.
ghost use Rattle.std.specs.Prelude.{◌≡◌, ◌<◌, length, IfSome, IfNone};
ghost use Rattle.type_unify.specs.Cells.{at, trees, hops, IsTable};
ghost use Rattle.type_unify.specs.Steps.{Walked, Nearer};

use crate::cell::{Cell, flex_of};
use indexmap::IndexMap;

// The number that the unknown of this node is bound to.
fn bound_at(cells: &[Cell], entries: &IndexMap<u64, usize>, here: usize) -> Option<usize>
    requires stands { IsTable cells.now entries.now.entries }
    requires within { here < length cells.now }
    ensures some { IfSome result (λ n. Nearer cells.now entries.now.entries here n) }
    ensures none { IfNone result (hops cells.now entries.now.entries (at (trees cells.now) here) ≡ 0) }
{
    let id = flex_of(&cells[here])?;
    entries.get(&id).copied()
}

/// The number where a walk over bound unknowns ends. It takes no memory.
pub fn walk(cells: &[Cell], entries: &IndexMap<u64, usize>, start: usize) -> usize
    requires stands { IsTable cells.now entries.now.entries }
    requires within { start < length cells.now }
    ensures { Walked cells.now entries.now.entries start result }
{
    let mut here = start;
    while let Some(next) = bound_at(cells, entries, here) {
        here = next;
    }
    here
}

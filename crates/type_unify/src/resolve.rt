//! Types with all bindings applied.
ghost use Rattle.std.specs.Prelude.{◌≡◌, IfOk};
ghost use Rattle.type_unify.specs.Types.{resolved};
ghost use Rattle.type_unify.specs.Written.{AreNodesOf, spelled, nodes_of};
ghost use Rattle.type_unify.specs.Cells.{bounds, IsTable};
ghost use Rattle.type_unify.specs.Taken.{IsLonger};

use crate::cell::Cell;
use crate::spell::spell;
use crate::take_in::take_in;
use crate::term::Node;
use indexmap::IndexMap;
use std::alloc::{AllocError, Global};

/// The nodes of a type with all bindings applied. The type itself is brought into the table on the way.
pub fn resolved_nodes(
    alloc: Global,
    cells: &mut Vec<Cell>,
    entries: &IndexMap<u64, usize>,
    nodes: &[Node],
) -> Result<Vec<Node>, AllocError>
    requires stands { IsTable cells.old.items entries.now.entries }
    requires spells { AreNodesOf nodes.now (spelled nodes.now) }
    ensures ok { IfOk result (λ out. out.items ≡ nodes_of (resolved (bounds cells.old.items entries.now.entries) (spelled nodes.now))) }
    ensures longer { IsLonger cells.old.items cells.new.items }
{
    let start = take_in(alloc, cells, nodes)?;
    let mut out = Vec::new(alloc);
    spell(alloc, cells, entries, start, &mut out)?;
    Ok(out)
}

//! Components as the nodes of a walk.
ghost use Rattle.std.specs.Prelude.{◌≡◌, ◌++◌, ℕ, List, IfOk, OnOk};
ghost use Rattle.project_order.specs.Numbers.{number_at, use_of, uses_of, node_of, nodes_of};

use crate::numbers::number_of;
use bp_base::Name;
use cabal_component::Component;
use graph_walk::{Node, Nodes, Numbers};
use sqlite_items::Items;
use std::alloc::{AllocError, Global};
use std::collections::HashMap;

/// Adds the number of a dependency; `base` is built in and is no node.
fn push_use(
    uses: &mut Numbers,
    table: &HashMap<Name, u64>,
    count: u64,
    dep: &Name,
) -> Result<(), AllocError>
    ensures { OnOk result (uses.new ≡ uses.old ++ use_of (number_at table.now count) dep.now) }
{
    if dep.as_bytes() != b"base".as_slice() {
        uses.push(number_of(table, count, dep))?;
    }
    Ok(())
}

/// The numbers of dependencies.
fn uses_of(
    alloc: Global,
    table: &HashMap<Name, u64>,
    count: u64,
    deps: &[Name],
) -> Result<Numbers, AllocError>
    ensures { IfOk result (λ uses. uses ≡ uses_of (number_at table.now count) deps.now) }
{
    let mut uses = Items::new(alloc);
    for dep in deps {
        push_use(&mut uses, table, count, dep)?;
    }
    Ok(uses)
}

/// A component as a node.
fn node_of(
    alloc: Global,
    table: &HashMap<Name, u64>,
    count: u64,
    component: &Component,
) -> Result<Node, AllocError>
    ensures { IfOk result (λ node. node ≡ node_of (number_at table.now count) component.now) }
{
    let uses = uses_of(alloc, table, count, component.deps.as_slice())?;
    Ok(Node { uses, there: true })
}

/// Components as nodes, in their order.
pub fn nodes_of(
    alloc: Global,
    table: &HashMap<Name, u64>,
    count: u64,
    components: &[Component],
) -> Result<Nodes, AllocError>
    ensures { IfOk result (λ nodes. nodes ≡ nodes_of (number_at table.now count) components.now) }
{
    let mut nodes = Items::new(alloc);
    for component in components {
        nodes.push(node_of(alloc, table, count, component)?)?;
    }
    Ok(nodes)
}

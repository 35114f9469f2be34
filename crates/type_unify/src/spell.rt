//! The nodes of a type with all bindings applied.
ghost use Rattle.std.specs.Prelude.{◌≡◌, ◌<◌, ◌++◌, ◌∷◌, [], length, OnOk};
ghost use Rattle.type_unify.specs.Written.{nodes_of};
ghost use Rattle.type_unify.specs.Cells.{seen, IsTable};
ghost use Rattle.type_unify.specs.Spelled.{Performs};

use crate::cell::Cell;
use crate::term::Node;
use crate::walk::walk;
use indexmap::IndexMap;
use std::alloc::{AllocError, Global};

/// What is left to write: the type of a number, or the node that joins the two types before it.
#[derive(Drop)]
pub enum Task {
    Visit(usize),
    Join,
}

// The two parts of an application, to be written one after the other and joined.
fn push_parts(tasks: &mut Vec<Task>, fun: usize, arg: usize) -> Result<(), AllocError>
    ensures { OnOk result (tasks.new.items ≡ tasks.old.items ++ Task.Join ∷ Task.Visit arg ∷ Task.Visit fun ∷ []) }
{
    tasks.push(Task::Join)?;
    tasks.push(Task::Visit(arg))?;
    tasks.push(Task::Visit(fun))?;
    Ok(())
}

/// One more node.
pub fn put(out: &mut Vec<Node>, node: Node) -> Result<(), AllocError>
    ensures { OnOk result (out.new.items ≡ out.old.items ++ node ∷ []) }
{
    out.push(node)?;
    Ok(())
}

// Writes one node, or lays out the parts of an application.
fn perform(
    alloc: Global,
    cells: &[Cell],
    entries: &IndexMap<u64, usize>,
    at: usize,
    tasks: &mut Vec<Task>,
    out: &mut Vec<Node>,
) -> Result<(), AllocError>
    requires stands { IsTable cells.now entries.now.entries }
    requires within { at < length cells.now }
    ensures { OnOk result (Performs (seen cells.now entries.now.entries) (length cells.now) at tasks.old.items tasks.new.items out.old.items out.new.items) }
{
    let end = walk(cells, entries, at);
    match &cells[end] {
        Cell::Flex { id } => put(out, Node::Flex { id: *id }),
        Cell::Rigid { id } => put(out, Node::Rigid { id: *id }),
        Cell::Con { name, kind } => {
            let name = name.copied(alloc)?;
            let kind = kind.copied(alloc)?;
            put(out, Node::Con { name, kind })
        }
        Cell::App { fun, arg } => push_parts(tasks, *fun, *arg),
    }
}

/// Writes the nodes of the type of a number, with all bindings applied.
pub fn spell(
    alloc: Global,
    cells: &[Cell],
    entries: &IndexMap<u64, usize>,
    start: usize,
    out: &mut Vec<Node>,
) -> Result<(), AllocError>
    requires stands { IsTable cells.now entries.now.entries }
    requires within { start < length cells.now }
    ensures { OnOk result (out.new.items ≡ out.old.items ++ nodes_of (seen cells.now entries.now.entries start)) }
{
    let mut tasks = Vec::new(alloc);
    tasks.push(Task::Visit(start))?;
    while let Some(task) = tasks.pop() {
        match task {
            Task::Visit(at) => perform(alloc, cells, entries, at, &mut tasks, out)?,
            Task::Join => put(out, Node::App)?,
        }
    }
    Ok(())
}

//! Types brought into a table.
ghost use Rattle.std.specs.Prelude.{◌≡◌, ◌++◌, ◌∷◌, [], length, if◌then◌else◌, IfOk, OnOk};
ghost use Rattle.type_unify.specs.Written.{AreNodesOf, spelled};
ghost use Rattle.type_unify.specs.Stacks.{Below};
ghost use Rattle.type_unify.specs.Taken.{IsLonger, Took, TakenIn, joining};

use crate::cell::Cell;
use crate::term::Node;
use std::alloc::{AllocError, Global};

// One more node, whose number goes onto the stack.
fn put(cells: &mut Vec<Cell>, stack: &mut Vec<usize>, cell: Cell) -> Result<(), AllocError>
    ensures cells { OnOk result (cells.new.items ≡ cells.old.items ++ cell ∷ []) }
    ensures stack { OnOk result (stack.new.items ≡ stack.old.items ++ length cells.old.items ∷ []) }
    ensures longer { IsLonger cells.old.items cells.new.items }
{
    let number = cells.len();
    cells.push(cell)?;
    stack.push(number)?;
    Ok(())
}

// The application of two numbers: the last one is the argument, or the function.
fn application(swapped: bool, below: usize, top: usize) -> Cell
    ensures { result ≡ (if swapped then Cell.App top below else Cell.App below top) }
{
    if swapped {
        Cell::App {
            fun: top,
            arg: below,
        }
    } else {
        Cell::App {
            fun: below,
            arg: top,
        }
    }
}

// The two types on top of the stack become their application; a shorter stack stays.
fn join(cells: &mut Vec<Cell>, stack: &mut Vec<usize>, swapped: bool) -> Result<(), AllocError>
    requires { Below (length cells.old.items) stack.old.items }
    ensures ok { OnOk result (Took (joining swapped) cells.old.items cells.new.items stack.old.items stack.new.items) }
    ensures longer { IsLonger cells.old.items cells.new.items }
{
    let Some(top) = stack.pop() else {
        return Ok(());
    };
    let Some(below) = stack.pop() else {
        stack.push(top)?;
        return Ok(());
    };
    put(cells, stack, application(swapped, below, top))
}

// One more node of a type.
fn take_node(
    alloc: Global,
    cells: &mut Vec<Cell>,
    stack: &mut Vec<usize>,
    node: &Node,
) -> Result<(), AllocError>
    requires { Below (length cells.old.items) stack.old.items }
    ensures ok { OnOk result (Took node.now cells.old.items cells.new.items stack.old.items stack.new.items) }
    ensures longer { IsLonger cells.old.items cells.new.items }
{
    match node {
        Node::Flex { id } => put(cells, stack, Cell::Flex { id: *id }),
        Node::Rigid { id } => put(cells, stack, Cell::Rigid { id: *id }),
        Node::Con { name, kind } => {
            let name = name.copied(alloc)?;
            let kind = kind.copied(alloc)?;
            put(cells, stack, Cell::Con { name, kind })
        }
        Node::App => join(cells, stack, false),
        Node::Swapped => join(cells, stack, true),
    }
}

/// Brings a type into a table, and answers its number.
pub fn take_in(alloc: Global, cells: &mut Vec<Cell>, nodes: &[Node]) -> Result<usize, AllocError>
    requires { AreNodesOf nodes.now (spelled nodes.now) }
    ensures ok { IfOk result (λ n. TakenIn cells.old.items cells.new.items (spelled nodes.now) n) }
    ensures longer { IsLonger cells.old.items cells.new.items }
{
    let mut stack = Vec::new(alloc);
    for node in nodes {
        take_node(alloc, cells, &mut stack, node)?;
    }
    Ok(stack[0])
}

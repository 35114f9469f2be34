//! Nodes of types in a table.
ghost use Rattle.std.specs.Prelude.{◌≡◌, ◌<◌, ◌^◌, IfSome, IfNone};
ghost use Rattle.type_unify.specs.Cells.{NotFlex};

use bp_base::{Kind, OrigName};

/// A node of a type. The parts of an application stand in the same table, by their numbers.
#[derive(Drop)]
pub enum Cell {
    Flex { id: u64 },
    Rigid { id: u64 },
    Con { name: OrigName, kind: Kind },
    App { fun: usize, arg: usize },
}

/// The unknown that a node is.
pub fn flex_of(cell: &Cell) -> Option<u64>
    ensures some { IfSome result (λ x. cell.now ≡ Cell.Flex x) }
    ensures in_range { IfSome result (λ x. x < 2 ^ 64) }
    ensures none { IfNone result (NotFlex cell.now) }
{
    match cell {
        Cell::Flex { id } => Some(*id),
        Cell::Rigid { .. } => None,
        Cell::Con { .. } => None,
        Cell::App { .. } => None,
    }
}

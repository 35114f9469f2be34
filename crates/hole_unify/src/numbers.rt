//! Equations by numbers of a table.
ghost use Rattle.std.specs.Prelude.{◌≡◌, List, [], ◌++◌, length, IfOk, OnOk};
ghost use Rattle.ident_table.specs.Numbers.{IsIdentTable};
ghost use Rattle.hole_unify.specs.Table.{HasTerms};
ghost use Rattle.hole_unify.specs.Close.{pairs_of, stated_pairs, ArePairsBelow};
ghost use Rattle.hole_unify.specs.Numbers.{IsNumbered};

use crate::equation::Equation;
use crate::pair::NumberPair;
use ident_table::IdentTable;
use std::alloc::{AllocError, Global};

/// The numbers of an equation's sides.
fn number_sides(
    alloc: Global,
    table: &mut IdentTable,
    equation: &Equation,
) -> Result<NumberPair, AllocError>
    ensures { IfOk result (λ pair. IsNumbered table.old equation.now table.new pair) }
{
    let one = table.number(&equation.left)?;
    let other = table.number(&equation.right)?;
    Ok(NumberPair { one, other })
}

/// Puts the terms of the equations into the table. The answer has the sides of each equation, those of the first one last, where they
/// are taken first.
pub fn list_pairs(
    alloc: Global,
    table: &mut IdentTable,
    equations: &[Equation],
) -> Result<Vec<NumberPair>, AllocError>
    requires { table.old ≡ [] }
    ensures pairs { IfOk result (λ r. pairs_of table.new r.items ≡ stated_pairs equations.now) }
    ensures below { IfOk result (λ r. ArePairsBelow (length table.new) r.items) }
    ensures terms { IfOk result (λ r. HasTerms equations.now table.new) }
    ensures table { IfOk result (λ r. IsIdentTable table.new) }
{
    let mut pairs = Vec::new(alloc);
    let mut place = equations.len();
    while place > 0 {
        place -= 1;
        pairs.push(number_sides(alloc, table, &equations[place])?)?;
    }
    Ok(pairs)
}

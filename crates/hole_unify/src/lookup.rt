//! Look-ups in tables of identities.
ghost use Rattle.std.specs.Prelude.{◌≡◌, ◌<◌, length};
ghost use Rattle.std.specs.Option.{option_copied};
ghost use Rattle.std.specs.Ordering.{nat_cmp, is_lt};
ghost use Rattle.std.specs.Cmp.Lexicographic.{slice_cmp};
ghost use Rattle.ident_table.specs.Numbers.{ident_of};
ghost use Rattle.hole_unify.specs.Table.{is_module};
ghost use Rattle.hole_unify.specs.Numbers.{number_at};
ghost use Rattle.hole_unify.specs.Stages.{hole_at};

use bp_base::{Name, compare};
use ident_table::{IdentNode, IdentTable, NumberFill};

/// The number that fills have for a hole.
pub fn filler(fills: &[NumberFill], hole: &Name) -> Option<usize>
    ensures { result ≡ number_at hole.now fills.now }
{
    for each in fills {
        if each.hole == *hole {
            return Some(each.ident);
        }
    }
    None
}

/// Whether the identity of a number is a module.
pub fn is_module_at(table: &IdentTable, number: usize) -> bool
    requires { number < length table.now }
    ensures { result ≡ is_module (ident_of table.now number) }
{
    match table.node_at(number) {
        IdentNode::Hole { .. } => false,
        IdentNode::Module { .. } => true,
    }
}

/// The name of a hole.
pub fn hole_name(table: &IdentTable, number: usize) -> Option<&Name>
    requires { number < length table.now }
    ensures { option_copied result ≡ hole_at table.now number }
{
    match table.node_at(number) {
        IdentNode::Hole { name } => Some(name),
        IdentNode::Module { .. } => None,
    }
}

/// Whether a name stands before another one in byte order.
pub fn is_before(one: &Name, other: &Name) -> bool
    ensures { result ≡ is_lt (slice_cmp nat_cmp one.now other.now) }
{
    compare(one, other).is_lt()
}

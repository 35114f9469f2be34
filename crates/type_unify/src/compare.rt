//! What makes the types of two numbers equal.
ghost use Rattle.std.specs.Prelude.{◌≡◌, ◌<◌, length};
ghost use Rattle.type_unify.specs.Cells.{seen, IsTable};
ghost use Rattle.type_unify.specs.Differences.{Differs, Tells};

use crate::cell::{Cell, flex_of};
use crate::walk::walk;
use bp_base::same_orig_name;
use indexmap::IndexMap;

/// What two types ask for: nothing, that their parts are equal, that an unknown is bound, or what can't be.
pub enum Difference {
    Same,
    Parts {
        fun: (usize, usize),
        arg: (usize, usize),
    },
    Bind {
        id: u64,
        to: usize,
    },
    Clash,
}

// The difference of two nodes that are no unknowns. Kinds take no part: a type is a term over original names and variables.
fn differ(one: &Cell, other: &Cell) -> Difference
    ensures { Differs one.now other.now result }
{
    match (one, other) {
        (Cell::Rigid { id }, Cell::Rigid { id: second }) => {
            if *id == *second {
                Difference::Same
            } else {
                Difference::Clash
            }
        }
        (Cell::Con { name, .. }, Cell::Con { name: second, .. }) => {
            if same_orig_name(name, second) {
                Difference::Same
            } else {
                Difference::Clash
            }
        }
        (
            Cell::App { fun, arg },
            Cell::App {
                fun: second,
                arg: last,
            },
        ) => Difference::Parts {
            fun: (*fun, *second),
            arg: (*arg, *last),
        },
        _ => Difference::Clash,
    }
}

/// What the types of two numbers ask for. It takes no memory. Equal numbers ask for nothing, so parts that two types share are not
/// gone through.
pub fn compare(
    cells: &[Cell],
    entries: &IndexMap<u64, usize>,
    one: usize,
    other: usize,
) -> Difference
    requires stands { IsTable cells.now entries.now.entries }
    requires first { one < length cells.now }
    requires second { other < length cells.now }
    ensures { Tells cells.now entries.now.entries one other result }
{
    let one = walk(cells, entries, one);
    let other = walk(cells, entries, other);
    if one == other {
        return Difference::Same;
    }
    let first = &cells[one];
    let second = &cells[other];
    match (flex_of(first), flex_of(second)) {
        (Some(id), Some(last)) => {
            if id == last {
                Difference::Same
            } else {
                Difference::Bind { id, to: other }
            }
        }
        (Some(id), None) => Difference::Bind { id, to: other },
        (None, Some(id)) => Difference::Bind { id, to: one },
        (None, None) => differ(first, second),
    }
}

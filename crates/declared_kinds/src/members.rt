//! Numbers of groups.
ghost use Rattle.std.specs.Prelude.{◌↔◌, ◌≡◌, ◌++◌, IsTrue, IfOk, OnOk, take};
ghost use Rattle.bp_base.specs.Lists.{Among};
ghost use Rattle.declared_kinds.specs.Cycles.{in_groups};

use hs_core::{IndexGroup, Indices};
use sqlite_items::Items;
use std::alloc::{AllocError, Global};

/// Whether a number is one of these.
pub fn is_member(numbers: &[u64], number: u64) -> bool
    ensures { IsTrue result ↔ Among number numbers.now }
{
    for each in numbers {
        if *each == number {
            return true;
        }
    }
    false
}

// Numbers go behind the others.
fn add_numbers(numbers: &[u64], all: &mut Indices) -> Result<(), AllocError>
    ensures { OnOk result (all.new ≡ all.old ++ numbers.now) }
{
    for index in 0..numbers.len() {
        all.push(numbers[index])?;
    }
    Ok(())
}

/// The numbers of groups, group after group.
pub fn in_groups(alloc: Global, groups: &[IndexGroup]) -> Result<Indices, AllocError>
    ensures { IfOk result (λ ns. ns ≡ in_groups groups.now) }
{
    let mut all = Items::new(alloc);
    for index in 0..groups.len() {
        add_numbers(groups[index].members.as_slice(), &mut all)?;
    }
    Ok(all)
}

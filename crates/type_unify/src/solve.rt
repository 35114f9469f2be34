//! Unification over a table of nodes.
ghost use Rattle.std.specs.Prelude.{◌≡◌, ◌<◌, ◌++◌, ◌∷◌, [], None, length, nat_eq, IfOk, OnOk, OnErr, IfErr};
ghost use Rattle.std.specs.Map.{lookup};
ghost use Rattle.type_unify.specs.Cells.{at, trees, bounds, seen, IsTable};
ghost use Rattle.type_unify.specs.Steps.{AllWithin};
ghost use Rattle.type_unify.specs.Outcomes.{Step, Advance, HaveNoSolution, Solved, Grows};
ghost use Rattle.type_unify.specs.Unified.{NotSolvable};

use crate::cell::Cell;
use crate::compare::{Difference, compare};
use crate::occurs::occurs;
use indexmap::IndexMap;
use std::alloc::{AllocError, Global};

/// Why two types were not unified.
#[derive(Clone, Copy, Debug, PartialEq, Eq)]
pub enum UnifyError {
    NoUnifier,
    NoMemory,
}

impl From<AllocError> for UnifyError {
    ghost use Rattle.type_unify.specs.declared.solve.UnifyError.{UnifyError};

    ghost from_gives = { λ _ r. r ≡ UnifyError.NoMemory };

    fn from(_error: AllocError) -> Self {
        UnifyError::NoMemory
    }
}

/// A free unknown and the number that it is to be bound to.
pub struct Wanted {
    pub id: u64,
    pub to: usize,
}

// Both parts of two applications go onto the stack.
fn push_pairs(
    stack: &mut Vec<(usize, usize)>,
    first: (usize, usize),
    second: (usize, usize),
) -> Result<(), AllocError>
    ensures { OnOk result (stack.new.items ≡ stack.old.items ++ first ∷ second ∷ []) }
{
    stack.push(first)?;
    stack.push(second)?;
    Ok(())
}

// A stack of one pair.
fn one_pair(alloc: Global, one: usize, other: usize) -> Result<Vec<(usize, usize)>, AllocError>
    ensures { IfOk result (λ stack. stack.items ≡ (one, other) ∷ []) }
{
    let mut stack = Vec::new(alloc);
    stack.push((one, other))?;
    Ok(stack)
}

// One pair: nothing is left of it, or its parts, or an unknown to be bound.
fn step(
    cells: &[Cell],
    entries: &IndexMap<u64, usize>,
    stack: &mut Vec<(usize, usize)>,
    one: usize,
    other: usize,
) -> Result<Option<Wanted>, UnifyError>
    requires stands { IsTable cells.now entries.now.entries }
    requires first { one < length cells.now }
    requires second { other < length cells.now }
    ensures ok { IfOk result (λ r. Step cells.now entries.now.entries (stack.old.items ++ (one, other) ∷ []) stack.new.items r) }
    ensures none { IfErr result (λ e. e ≡ UnifyError.NoUnifier → HaveNoSolution (seen cells.now entries.now.entries) (stack.old.items ++ (one, other) ∷ [])) }
{
    match compare(cells, entries, one, other) {
        Difference::Same => Ok(None),
        Difference::Parts { fun, arg } => {
            push_pairs(stack, arg, fun)?;
            Ok(None)
        }
        Difference::Bind { id, to } => Ok(Some(Wanted { id, to })),
        Difference::Clash => Err(UnifyError::NoUnifier),
    }
}

// Pairs are taken from the stack until an unknown is to be bound or none is left.
fn advance(
    cells: &[Cell],
    entries: &IndexMap<u64, usize>,
    stack: &mut Vec<(usize, usize)>,
) -> Result<Option<Wanted>, UnifyError>
    requires stands { IsTable cells.now entries.now.entries }
    requires within { AllWithin (length cells.now) stack.old.items }
    ensures ok { IfOk result (λ r. Advance cells.now entries.now.entries stack.old.items stack.new.items r) }
    ensures none { IfErr result (λ e. e ≡ UnifyError.NoUnifier → HaveNoSolution (seen cells.now entries.now.entries) stack.old.items) }
{
    while let Some((one, other)) = stack.pop() {
        match step(cells, entries, stack, one, other) {
            Ok(None) => {}
            Ok(Some(wanted)) => return Ok(Some(wanted)),
            Err(error) => return Err(error),
        }
    }
    Ok(None)
}

// One more entry, of an unknown that has none.
fn bind(entries: &mut IndexMap<u64, usize>, id: u64, to: usize) -> Result<(), AllocError>
    requires { lookup (nat_eq id) entries.old.entries ≡ None }
    ensures ok { OnOk result (entries.new.entries ≡ entries.old.entries ++ (id, to) ∷ []) }
    ensures err { OnErr result (entries.new.entries ≡ entries.old.entries) }
{
    entries.insert(id, to)?;
    Ok(())
}

/// Binds unknowns until the types of two numbers are equal. Where they can't be, the entries made so far stay.
pub fn solve(
    alloc: Global,
    cells: &[Cell],
    entries: &mut IndexMap<u64, usize>,
    one: usize,
    other: usize,
) -> Result<(), UnifyError>
    requires stands { IsTable cells.now entries.old.entries }
    requires first { one < length cells.now }
    requires second { other < length cells.now }
    ensures ok { OnOk result (Solved cells.now entries.old.entries entries.new.entries one other) }
    ensures grows { Grows entries.old.entries entries.new.entries }
    ensures none { IfErr result (λ e. e ≡ UnifyError.NoUnifier → NotSolvable (bounds cells.now entries.old.entries) (at (trees cells.now) one) (at (trees cells.now) other)) }
{
    let mut stack = one_pair(alloc, one, other)?;
    'bindings: loop {
        match advance(cells, entries, &mut stack) {
            Ok(None) => return Ok(()),
            Ok(Some(Wanted { id, to })) => {
                if occurs(alloc, cells, entries, id, to)? {
                    return Err(UnifyError::NoUnifier);
                }
                bind(entries, id, to)?;
            }
            Err(error) => return Err(error),
        }
    }
}

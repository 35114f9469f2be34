//! Unification of identities.
ghost use Rattle.std.specs.Prelude.{◌≡◌, ◌<◌, ◌+◌, ◌-◌, length, IfOk, IfErr};
ghost use Rattle.ident_table.specs.Numbers.{fills_of, AreFillsBelow};
ghost use Rattle.hole_unify.specs.Unifiers.{IsAnswer};
ghost use Rattle.hole_unify.specs.Causes.{IsCause, IsLawful};
ghost use Rattle.hole_unify.specs.Occurrence.{AreOfEquations};
ghost use Rattle.hole_unify.specs.Solve.{IsSettlement, IsObstacle, IsRange, IsFirst, labelled};

use crate::answer::list_answer;
use crate::build::build;
use crate::classes::first_classes;
use crate::close::close;
use crate::equation::{Equation, Equations, Head, IdentUnifyError};
use crate::numbers::list_pairs;
use crate::order::list_order;
use crate::reach::{find_cycle, list_edges};
use bp_base::{Fills, Name};
use ident_table::{IdentTable, NumberFills};
use std::alloc::{AllocError, Global};

/// Why equations have no unifier.
#[derive(Debug, Drop)]
pub enum Obstacle {
    Clash { one: Head, other: Head },
    Cycle { hole: Name },
}

/// What the classes of equations come to: closed classes without a cycle, with an order to build them in, or an obstacle.
#[derive(Drop)]
pub enum Settlement {
    Free {
        table: IdentTable,
        classes: Vec<usize>,
        order: Vec<usize>,
    },
    Stuck {
        obstacle: Obstacle,
    },
}

/// Finds the classes of the equations.
fn settle(alloc: Global, equations: &[Equation]) -> Result<Settlement, AllocError>
    requires { IsLawful equations.now }
    ensures { IfOk result (λ r. IsSettlement equations.now r) }
{
    let mut table = IdentTable::new(alloc);
    let pairs = list_pairs(alloc, &mut table, equations)?;
    let mut classes = first_classes(alloc, table.len())?;
    if let Some((one, other)) = close(alloc, &table, pairs, classes.as_mut_slice())? {
        let obstacle = Obstacle::Clash { one, other };
        return Ok(Settlement::Stuck { obstacle });
    }
    let edges = list_edges(alloc, &table, classes.as_slice())?;
    let order = list_order(alloc, edges.as_slice(), classes.len())?;
    match find_cycle(
        alloc,
        &table,
        classes.as_slice(),
        edges.as_slice(),
        order.as_slice(),
    )? {
        Some(hole) => {
            let obstacle = Obstacle::Cycle { hole };
            Ok(Settlement::Stuck { obstacle })
        }
        None => Ok(Settlement::Free {
            table,
            classes,
            order,
        }),
    }
}

/// The first `low` equations have a unifier, and the first `high` have none, as `obstacle` shows.
#[derive(Debug, Drop)]
pub struct Range {
    pub low: usize,
    pub high: usize,
    pub obstacle: Obstacle,
}

/// Half of a range in which the first obstacle is.
fn halve(alloc: Global, equations: &[Equation], range: Range) -> Result<Range, AllocError>
    requires lawful { IsLawful equations.now }
    requires bounds { IsRange equations.now range }
    requires wide { range.low + 1 < range.high }
    ensures bounds { IfOk result (λ r. IsRange equations.now r) }
    ensures half { IfOk result (λ r. r.high - r.low < range.high - range.low) }
{
    let Range {
        low,
        high,
        obstacle,
    } = range;
    let middle = low + (high - low) / 2;
    match settle(alloc, &equations[..middle])? {
        Settlement::Free { .. } => Ok(Range {
            low: middle,
            high,
            obstacle,
        }),
        Settlement::Stuck { obstacle } => Ok(Range {
            low,
            high: middle,
            obstacle,
        }),
    }
}

/// The first equation such that those up to it and with it have no unifier, where all have none.
fn first_obstacle(
    alloc: Global,
    equations: &[Equation],
    obstacle: Obstacle,
) -> Result<Range, AllocError>
    requires lawful { IsLawful equations.now }
    requires fails { IsObstacle equations.now obstacle }
    ensures { IfOk result (λ r. IsFirst equations.now r.low r.obstacle) }
{
    let high = equations.len();
    let mut range = Range {
        low: 0,
        high,
        obstacle,
    };
    while range.low + 1 < range.high {
        range = halve(alloc, equations, range)?;
    }
    Ok(range)
}

fn with_label(label: Name, obstacle: Obstacle) -> IdentUnifyError
    ensures { result ≡ labelled label obstacle }
{
    match obstacle {
        Obstacle::Clash { one, other } => IdentUnifyError::Clash { label, one, other },
        Obstacle::Cycle { hole } => IdentUnifyError::Cycle { label, hole },
    }
}

/// The cause of a refusal.
fn refusal(
    alloc: Global,
    equations: &[Equation],
    obstacle: Obstacle,
) -> Result<IdentUnifyError, AllocError>
    requires lawful { IsLawful equations.now }
    requires fails { IsObstacle equations.now obstacle }
    ensures { IfOk result (λ error. IsCause equations.now error) }
{
    let first = first_obstacle(alloc, equations, obstacle)?;
    let label = equations[first.low].label.copied(alloc)?;
    let error = with_label(label, first.obstacle);
    Ok(error)
}

/// Fills whose identities are numbers of a table.
#[derive(Drop)]
pub struct SharedFills {
    pub table: IdentTable,
    pub fills: NumberFills,
}

/// The answer of `unify_idents` before it is written out: identities that are equal stand in the table once, where the written terms may
/// be exponentially larger.
pub fn unify_shared(alloc: Global, equations: &Equations) -> Result<SharedFills, IdentUnifyError>
    requires { IsLawful equations.now }
    ensures ok { IfOk result (λ shared. IsAnswer equations.now (fills_of shared.table shared.fills)) }
    ensures occurs { IfOk result (λ shared. AreOfEquations equations.now (fills_of shared.table shared.fills)) }
    ensures below { IfOk result (λ shared. AreFillsBelow (length shared.table) shared.fills) }
    ensures err { IfErr result (λ error. IsCause equations.now error) }
{
    let all = equations.as_slice();
    match settle(alloc, all)? {
        Settlement::Free {
            mut table,
            classes,
            order,
        } => {
            let built = build(alloc, &mut table, classes.as_slice(), order.as_slice())?;
            let fills = list_answer(alloc, &table, classes.as_slice(), built.as_slice())?;
            Ok(SharedFills { table, fills })
        }
        Settlement::Stuck { obstacle } => {
            let error = refusal(alloc, all, obstacle)?;
            Err(error)
        }
    }
}

/// The most general fills that make the two sides of each equation one identity. Holes that become one bear the least of their
/// names in byte order, and a hole that stays as it is has no fill. Equations are taken in their order: a refusal names the label of
/// the first one such that those up to it and with it have no unifier. Units of one component are to have the same holes, and the
/// holes of each unit are to rise strictly.
pub fn unify_idents(alloc: Global, equations: &Equations) -> Result<Fills, IdentUnifyError>
    requires { IsLawful equations.now }
    ensures ok { IfOk result (λ fills. IsAnswer equations.now fills) }
    ensures occurs { IfOk result (λ fills. AreOfEquations equations.now fills) }
    ensures err { IfErr result (λ error. IsCause equations.now error) }
{
    let shared = unify_shared(alloc, equations)?;
    let fills = shared.table.fills_at(&shared.fills)?;
    Ok(fills)
}

//! A loop over what is still to be done, so that no depth of nodes needs the machine's stack.
ghost use Rattle.std.specs.Prelude.{◌≡◌, ◌++◌, ℕ, ◌<◌, IfOk, IfErr, OnOk, map, length, reverse, replicate, slice_set, [], ◌∷◌};
ghost use Rattle.graph_walk.specs.Graph.{is_there, walk_from, ChecksWalk, wanted};
ghost use Rattle.graph_walk.specs.Walking.{enters, IsStep, IsStepBelow, StopsAt};
ghost use Rattle.graph_walk.specs.declared.walk.Step.TheVariants.{Enter};
ghost use Rattle.graph_walk.specs.declared.walk.Mark.TheVariants.{New, Done};

use sqlite_items::Items;
use std::alloc::{AllocError, Global};

/// Numbers in order.
pub type Numbers = Items<u64>;

/// A node: what it uses, by number, in order, and whether it is there at all.
#[derive(Debug, Drop)]
pub struct Node {
    pub uses: Numbers,
    pub there: bool,
}

/// Nodes by number, from 0.
pub type Nodes = Items<Node>;

/// A node that is asked for, and the node that asks; nobody asks for those that a walk starts from.
#[derive(Debug, Clone, Copy, Drop)]
pub struct Use {
    pub by: Option<u64>,
    pub to: u64,
}

/// Why a walk has no order.
#[derive(Debug, Clone, Copy)]
pub enum WalkError {
    /// What the node uses leads back to it.
    Cycle { at: u64 },
    /// The node is not there.
    Absent { wanted: Use },
    NoMemory,
}

impl From<AllocError> for WalkError {
    ghost use Rattle.graph_walk.specs.declared.walk.WalkError.{WalkError};

    ghost from_gives = { λ _ e. e ≡ WalkError.NoMemory };

    fn from(_error: AllocError) -> WalkError {
        WalkError::NoMemory
    }
}

/// What a walk is still to do.
#[derive(Debug, Clone, Copy, Drop)]
pub enum Step {
    /// Begin it, unless it is done.
    Enter { wanted: Use },
    /// All that it uses is done, and so is it now.
    Leave { index: u64 },
}

/// How far a node has come.
#[derive(Debug, Clone, Copy)]
pub enum Mark {
    New,
    Begun,
    Done,
}

/// How far a walk has come.
#[derive(Debug, Drop)]
pub struct Walked {
    pub marks: Items<Mark>,
    /// The numbers that are done, in this order.
    pub done: Numbers,
}

/// Puts these on top, the first of them uppermost.
fn push_enters(
    pending: &mut Items<Step>,
    by: Option<u64>,
    numbers: &[u64],
) -> Result<(), AllocError>
    ensures { OnOk result (reverse pending.new ≡ enters (map (wanted by) numbers.now) ++ reverse pending.old) }
{
    for behind in 0..numbers.len() {
        let to = numbers[numbers.len() - 1 - behind];
        pending.push(Step::Enter {
            wanted: Use { by, to },
        })?;
    }
    Ok(())
}

/// Whether a node is there.
fn is_there(nodes: &[Node], number: u64) -> bool
    ensures { result ≡ is_there nodes.now number }
{
    match nodes.get(number as usize) {
        Some(node) => node.there,
        None => false,
    }
}

fn enter(
    nodes: &[Node],
    wanted: Use,
    pending: &mut Items<Step>,
    walked: &mut Walked,
) -> Result<(), WalkError>
    requires { length walked.old.marks ≡ length nodes.now }
    ensures ok { OnOk result (IsStep nodes.now (Enter wanted) (reverse pending.old) walked.old (reverse pending.new) walked.new) }
    ensures err { IfErr result (λ e. StopsAt nodes.now (Enter wanted) walked.old e) }
{
    if !is_there(nodes, wanted.to) {
        return Err(WalkError::Absent { wanted });
    }
    let at = wanted.to as usize;
    match walked.marks.as_slice()[at] {
        Mark::Done => Ok(()),
        Mark::Begun => Err(WalkError::Cycle { at: wanted.to }),
        Mark::New => {
            walked.marks.set(at, Mark::Begun);
            pending.push(Step::Leave { index: wanted.to })?;
            push_enters(pending, Some(wanted.to), nodes[at].uses.as_slice())?;
            Ok(())
        }
    }
}

fn leave(index: u64, walked: &mut Walked) -> Result<(), AllocError>
    requires { index < length walked.old.marks }
    ensures marks { OnOk result (walked.new.marks ≡ slice_set walked.old.marks index Done) }
    ensures done { OnOk result (walked.new.done ≡ walked.old.done ++ index ∷ []) }
{
    walked.marks.set(index as usize, Mark::Done);
    walked.done.push(index)
}

fn take_step(
    nodes: &[Node],
    step: Step,
    pending: &mut Items<Step>,
    walked: &mut Walked,
) -> Result<(), WalkError>
    requires below { IsStepBelow (length nodes.now) step }
    requires size { length walked.old.marks ≡ length nodes.now }
    ensures ok { OnOk result (IsStep nodes.now step (reverse pending.old) walked.old (reverse pending.new) walked.new) }
    ensures err { IfErr result (λ e. StopsAt nodes.now step walked.old e) }
{
    match step {
        Step::Enter { wanted } => enter(nodes, wanted, pending, walked),
        Step::Leave { index } => {
            leave(index, walked)?;
            Ok(())
        }
    }
}

fn nothing_walked(alloc: Global, count: usize) -> Result<Walked, AllocError>
    ensures marks { IfOk result (λ walked. walked.marks ≡ replicate count New) }
    ensures nothing { IfOk result (λ walked. walked.done ≡ []) }
{
    let mut marks = Items::new(alloc);
    for _ in 0..count {
        marks.push(Mark::New)?;
    }
    Ok(Walked {
        marks,
        done: Items::new(alloc),
    })
}

/// The nodes that these lead to, each behind all that it uses, in the order of a depth-first walk that goes through uses in order. Before
/// all else of a use it is asked whether its node is there: Absent names the first one that isn't, with the node that asks for it. Cycle
/// names the first node that is met again while it is begun. A number past the last node's is that of none that is there. Nothing here
/// calls itself.
pub fn post_order(alloc: Global, nodes: &[Node], starts: &[u64]) -> Result<Numbers, WalkError>
    ensures { ChecksWalk (walk_from nodes.now starts.now) result }
{
    let mut walked = nothing_walked(alloc, nodes.len())?;
    let mut pending = Items::new(alloc);
    push_enters(&mut pending, None, starts)?;
    'steps: while let Some(step) = pending.pop() {
        take_step(nodes, step, &mut pending, &mut walked)?;
    }
    Ok(walked.done)
}

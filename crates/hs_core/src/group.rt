//! Dependency groups: the strongly connected components of who uses whom (Haskell 2010 Report, sections 4.5.1 and 4.6).
ghost use Rattle.std.specs.Prelude.{◌≡◌, [], ◌∷◌, ◌++◌, replicate, ◌<◌, ℕ, ◌↔◌, IsTrue, IfOk, OnOk, length, reverse, slice_set, slice_index_or};
ghost use Rattle.hs_core.specs.Groups.{uses_at, InRange, indices, DepthFirst, Grouped, AreGroups, GroupsAreOne};
ghost use Rattle.hs_core.specs.declared.group.Step.TheVariants.{Enter};
ghost use Rattle.hs_core.specs.Walking.{enters, IsStep, IsAtRest, AreBelow, IsWalk, IsTurned, IsUsedBy, IsRising, IsGathered};

use sqlite_items::Items;
use std::alloc::{AllocError, Global};

/// Numbers in order.
pub type Indices = Items<u64>;

/// What one declaration uses, by number, in order of first occurrence.
#[derive(Debug, Drop)]
pub struct UseList {
    pub uses: Indices,
}

/// The use lists of declarations, in order.
pub type UseLists = Items<UseList>;

/// Declarations that use each other, by number, rising.
#[derive(Debug, Drop)]
pub struct IndexGroup {
    pub members: Indices,
}

/// Groups, each behind those that it uses.
pub type IndexGroups = Items<IndexGroup>;

/// What a walk is still to do.
#[derive(Debug, Clone, Copy, Drop)]
pub enum Step {
    /// Begin it, unless it is begun.
    Enter { index: u64 },
    /// All that it uses is done, and so is it now.
    Leave { index: u64 },
}

/// How far a walk has come.
#[derive(Debug, Drop)]
pub struct Walked {
    /// For each number whether it is begun.
    pub begun: Items<bool>,
    /// The numbers that are done, in this order.
    pub done: Indices,
}

/// Puts these on top, the first of them uppermost.
fn push_enters(pending: &mut Items<Step>, indices: &[u64]) -> Result<(), AllocError>
    ensures { OnOk result (reverse pending.new ≡ enters indices.now ++ reverse pending.old) }
{
    for behind in 0..indices.len() {
        let index = indices[indices.len() - 1 - behind];
        pending.push(Step::Enter { index })?;
    }
    Ok(())
}

fn enter(
    uses: &[UseList],
    index: u64,
    pending: &mut Items<Step>,
    walked: &mut Walked,
) -> Result<(), AllocError>
    requires below { index < length uses.now }
    requires size { length walked.old.begun ≡ length uses.now }
    ensures { OnOk result (IsStep uses.now (Enter index) (reverse pending.old) walked.old (reverse pending.new) walked.new) }
{
    let at = index as usize;
    if walked.begun.as_slice()[at] {
        return Ok(());
    }
    walked.begun.set(at, true);
    pending.push(Step::Leave { index })?;
    push_enters(pending, uses[at].uses.as_slice())
}

fn take_step(
    uses: &[UseList],
    step: Step,
    pending: &mut Items<Step>,
    walked: &mut Walked,
) -> Result<(), AllocError>
    requires below { (v : ℕ) → step ≡ Enter v → v < length uses.now }
    requires size { length walked.old.begun ≡ length uses.now }
    ensures { OnOk result (IsStep uses.now step (reverse pending.old) walked.old (reverse pending.new) walked.new) }
{
    match step {
        Step::Enter { index } => enter(uses, index, pending, walked),
        Step::Leave { index } => walked.done.push(index),
    }
}

/// Walks depth-first from these, in order.
fn walk(
    alloc: Global,
    uses: &[UseList],
    starts: &[u64],
    walked: &mut Walked,
) -> Result<(), AllocError>
    requires in_range { InRange uses.now }
    requires starts { AreBelow (length uses.now) starts.now }
    requires rest { IsAtRest uses.now walked.old }
    ensures { OnOk result (IsWalk uses.now starts.now walked.old walked.new) }
{
    let mut pending = Items::new(alloc);
    push_enters(&mut pending, starts)?;
    'steps: while let Some(step) = pending.pop() {
        take_step(uses, step, &mut pending, walked)?;
    }
    Ok(())
}

fn nothing_walked(alloc: Global, uses: &[UseList]) -> Result<Walked, AllocError>
    ensures rest { IfOk result (λ walked. IsAtRest uses.now walked) }
    ensures nothing { IfOk result (λ walked. walked.done ≡ []) }
{
    let mut begun = Items::new(alloc);
    for _ in 0..uses.len() {
        begun.push(false)?;
    }
    Ok(Walked {
        begun,
        done: Items::new(alloc),
    })
}

fn all_indices(alloc: Global, count: usize) -> Result<Indices, AllocError>
    ensures { IfOk result (λ all. all ≡ indices count) }
{
    let mut all = Items::new(alloc);
    for index in 0..count {
        all.push(index as u64)?;
    }
    Ok(all)
}

fn post_order(alloc: Global, uses: &[UseList]) -> Result<Indices, AllocError>
    requires { InRange uses.now }
    ensures { IfOk result (λ order. DepthFirst uses.now [] [] (indices (length uses.now)) order) }
{
    let starts = all_indices(alloc, uses.len())?;
    let mut walked = nothing_walked(alloc, uses)?;
    walk(alloc, uses, starts.as_slice(), &mut walked)?;
    Ok(walked.done)
}

fn add_user(users: &mut [UseList], used: u64, user: u64) -> Result<(), AllocError>
    requires { used < length users.old }
    ensures { OnOk result (IsUsedBy users.old users.new (used ∷ []) user) }
{
    users[used as usize].uses.push(user)
}

fn add_uses(users: &mut [UseList], uses: &[u64], user: u64) -> Result<(), AllocError>
    requires { AreBelow (length users.old) uses.now }
    ensures { OnOk result (IsUsedBy users.old users.new uses.now user) }
{
    for used in uses {
        add_user(users, *used, user)?;
    }
    Ok(())
}

fn no_users(alloc: Global, count: usize) -> Result<Vec<UseList>, AllocError>
    ensures { IfOk result (λ users. users.items ≡ replicate count (record { uses = [] })) }
{
    let mut users = Vec::new(alloc);
    for _ in 0..count {
        users.push(UseList {
            uses: Items::new(alloc),
        })?;
    }
    Ok(users)
}

/// Who uses each.
fn users(alloc: Global, uses: &[UseList]) -> Result<Vec<UseList>, AllocError>
    requires { InRange uses.now }
    ensures { IfOk result (λ users. IsTurned uses.now users.items) }
{
    let mut users = no_users(alloc, uses.len())?;
    for user in 0..uses.len() {
        add_uses(
            users.as_mut_slice(),
            uses[user].uses.as_slice(),
            user as u64,
        )?;
    }
    Ok(users)
}

/// The same numbers, rising, each once.
fn rising(alloc: Global, numbers: &[u64]) -> Result<IndexGroup, AllocError>
    ensures { IfOk result (λ group. IsRising numbers.now group) }
{
    let mut sorted = Vec::from_slice(alloc, numbers)?;
    sorted.sort()?;
    sorted.dedup();
    Ok(IndexGroup {
        members: Items::from_vec(sorted),
    })
}

fn add_group(
    alloc: Global,
    users: &[UseList],
    index: u64,
    walked: &mut Walked,
    groups: &mut Vec<IndexGroup>,
) -> Result<(), AllocError>
    requires in_range { InRange users.now }
    requires below { index < length users.now }
    requires rest { IsAtRest users.now walked.old }
    ensures { OnOk result (IsGathered users.now index walked.old walked.new groups.old.items groups.new.items) }
{
    let begin = walked.done.len();
    walk(alloc, users, &[index], walked)?;
    let group = rising(alloc, &walked.done.as_slice()[begin..])?;
    groups.push(group)?;
    Ok(())
}

/// The groups of a walk's order, from its last number on.
fn gathered(
    alloc: Global,
    uses: &[UseList],
    mut order: Indices,
) -> Result<Vec<IndexGroup>, AllocError>
    requires in_range { InRange uses.now }
    requires order { DepthFirst uses.now [] [] (indices (length uses.now)) order }
    ensures { IfOk result (λ groups. Grouped uses.now order (reverse groups.items)) }
{
    let users = users(alloc, uses)?;
    let mut walked = nothing_walked(alloc, &users)?;
    let mut groups = Vec::new(alloc);
    'order: while let Some(index) = order.pop() {
        if !walked.begun.as_slice()[index as usize] {
            add_group(alloc, &users, index, &mut walked, &mut groups)?;
        }
    }
    Ok(groups)
}

/// Whether these are all below the count.
fn are_below(count: usize, indices: &[u64]) -> bool
    ensures { IsTrue result ↔ AreBelow count indices.now }
{
    for index in indices {
        if *index >= count as u64 {
            return false;
        }
    }
    true
}

/// Whether each number that is used is the number of a use list, as `groups` asks. It takes no memory.
pub fn are_in_range(uses: &UseLists) -> bool
    ensures { IsTrue result ↔ InRange uses.now }
{
    all_in_range(uses.as_slice())
}

fn all_in_range(uses: &[UseList]) -> bool
    ensures { IsTrue result ↔ InRange uses.now }
{
    for user in 0..uses.len() {
        if !are_below(uses.len(), uses[user].uses.as_slice()) {
            return false;
        }
    }
    true
}

/// The dependency groups: numbers that reach each other by uses stand in one group. Groups stand in the order in which a depth-first
/// walk from 0 on, along the uses in their order, is done with the last number of each.
pub fn groups(alloc: Global, uses: &UseLists) -> Result<IndexGroups, AllocError>
    requires { InRange uses.now }
    ensures { IfOk result (λ groups. AreGroups uses.now groups) }
{
    let order = post_order(alloc, uses.as_slice())?;
    let mut groups = gathered(alloc, uses.as_slice(), order)?;
    groups.as_mut_slice().reverse();
    Ok(Items::from_vec(groups))
}

/// Use lists have one list of groups.
pub fn groups_are_one()
    ensures { GroupsAreOne }
{}

//! Kinds in the order of the source.
ghost use Rattle.std.specs.Prelude.{◌≡◌, Some, None, IfOk, IfErr, IfSome, IfNone, map};
ghost use Rattle.hs_core.specs.Groups.{indices};
ghost use Rattle.kind_check.specs.Scopes.{known_names};
ghost use Rattle.declared_kinds.specs.Sources.{kind_for, kind_in_groups, source_kind, AreSourceKinds, IsSourceError};

use bp_base::Kind;
use hs_core::{IndexGroup, groups};
use kind_check::{GroupDecls, GroupError, KindEnv, Kinds};
use kind_order::{GroupKinds, kinds_in_order};
use sqlite_items::{Items, at};
use std::alloc::{AllocError, Global};
use type_groups::{all_groups, all_uses};

// The kind in the place of a number.
fn kind_for<'a>(members: &[u64], kinds: &'a [Kind], number: u64) -> Option<&'a Kind>
    ensures some { IfSome result (λ k. kind_for members.now kinds.now number ≡ Some k.now) }
    ensures none { IfNone result (kind_for members.now kinds.now number ≡ None) }
{
    for index in 0..members.len() {
        if members[index] == number {
            return at(kinds, index);
        }
    }
    None
}

// The kind that the first group with a number gives it.
fn kind_in_groups<'a>(
    order: &[IndexGroup],
    kinds: &'a [GroupKinds],
    number: u64,
) -> Option<&'a Kind>
    ensures some { IfSome result (λ k. kind_in_groups order.now kinds.now number ≡ Some k.now) }
    ensures none { IfNone result (kind_in_groups order.now kinds.now number ≡ None) }
{
    for index in 0..order.len() {
        if index >= kinds.len() {
            return None;
        }
        match kind_for(
            order[index].members.as_slice(),
            kinds[index].kinds.as_slice(),
            number,
        ) {
            Some(kind) => return Some(kind),
            None => {}
        }
    }
    None
}

fn source_kind(
    alloc: Global,
    order: &[IndexGroup],
    kinds: &[GroupKinds],
    number: u64,
) -> Result<Kind, AllocError>
    ensures { IfOk result (λ k. k ≡ source_kind order.now kinds.now number) }
{
    match kind_in_groups(order, kinds, number) {
        Some(kind) => kind.copied(alloc),
        None => Ok(Kind::Star),
    }
}

// The kinds of so many declarations.
fn in_source_order(
    alloc: Global,
    count: usize,
    order: &[IndexGroup],
    kinds: &[GroupKinds],
) -> Result<Kinds, AllocError>
    ensures { IfOk result (λ ks. ks ≡ map (source_kind order.now kinds.now) (indices count)) }
{
    let mut all = Items::new(alloc);
    for index in 0..count {
        all.push(source_kind(alloc, order, kinds, index as u64)?)?;
    }
    Ok(all)
}

/// The kinds of type declarations, in their order: dependency group after dependency group, each with its least kinds
/// where those before it have theirs. Kind names the first declaration of the first group that has no kinds.
pub fn source_kinds(alloc: Global, decls: &GroupDecls, env: KindEnv) -> Result<Kinds, GroupError>
    ensures ok { IfOk result (λ ks. AreSourceKinds (known_names env.names) decls.now ks) }
    ensures err { IfErr result (λ e. IsSourceError (known_names env.names) decls.now e) }
{
    let uses = all_uses(alloc, decls.as_slice())?;
    let order = groups(alloc, &uses)?;
    let members = all_groups(alloc, decls.as_slice(), order.as_slice())?;
    match kinds_in_order(alloc, members.as_slice(), env) {
        Ok(kinds) => Ok(in_source_order(alloc, decls.len(), order.as_slice(), kinds.as_slice())?),
        Err(error) => Err(error),
    }
}

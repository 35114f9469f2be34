//! Synonyms that lead to themselves.
ghost use Rattle.std.specs.Prelude.{◌≡◌, ◌↔◌, ◌<◌, ℕ, IsTrue, IfOk, IfSome, IfNone, length};
ghost use Rattle.bp_base.specs.Lists.{Among};
ghost use Rattle.hs_core.specs.Groups.{AreGroups, InRange, uses_at};
ghost use Rattle.kind_check.specs.Scopes.{decls_of};
ghost use Rattle.declared_kinds.specs.Cycles.{synonym_use, synonym_uses, IsOnCycle, IsFirstBad, IsFirstOnCycle};

use crate::members::{in_groups, is_member};
use hs_core::{IndexGroup, UseList, UseLists, groups};
use kind_check::{GroupDecl, Says};
use sqlite_items::{Items, at};
use std::alloc::{AllocError, Global};
use type_groups::{all_uses, uses_of};

// What the body of a synonym mentions; nothing for a data type.
fn synonym_use(alloc: Global, decls: &[GroupDecl], decl: &GroupDecl) -> Result<UseList, AllocError>
    ensures { IfOk result (λ u. u ≡ synonym_use (decls_of decls.now) decl.now) }
{
    match &decl.says {
        Says::Fields { .. } => Ok(UseList {
            uses: Items::new(alloc),
        }),
        Says::Synonym { .. } => uses_of(alloc, decls, decl),
    }
}

fn all_synonym_uses(alloc: Global, decls: &[GroupDecl]) -> Result<UseLists, AllocError>
    ensures { IfOk result (λ us. us ≡ synonym_uses (decls_of decls.now)) }
{
    let mut all = Items::new(alloc);
    for index in 0..decls.len() {
        all.push(synonym_use(alloc, decls, &decls[index])?)?;
    }
    Ok(all)
}

// Whether a number uses itself.
fn uses_itself(uses: &[UseList], number: u64) -> bool
    ensures { IsTrue result ↔ Among number (uses_at uses.now number) }
{
    match at(uses, number as usize) {
        Some(own) => is_member(own.uses.as_slice(), number),
        None => false,
    }
}

// Whether uses lead from a number to itself: others are of one group with it, or it uses itself.
fn is_on_cycle(uses: &[UseList], groups: &[IndexGroup], number: u64) -> bool
    requires groups { AreGroups uses.now groups.now }
    requires range { InRange uses.now }
    requires there { number < length uses.now }
    ensures { IsTrue result ↔ IsOnCycle uses.now number }
{
    for index in 0..groups.len() {
        let members = groups[index].members.as_slice();
        if is_member(members, number) {
            return members.len() > 1 || uses_itself(uses, number);
        }
    }
    false
}

// The first of these numbers from which uses lead to itself.
fn first_of(uses: &[UseList], groups: &[IndexGroup], numbers: &[u64]) -> Option<u64>
    requires groups { AreGroups uses.now groups.now }
    requires range { InRange uses.now }
    requires there { (n : ℕ) → Among n numbers.now → n < length uses.now }
    ensures some { IfSome result (IsFirstBad (λ i. IsOnCycle uses.now i → ⊥) numbers.now) }
    ensures none { IfNone result ((i : ℕ) → Among i numbers.now → IsOnCycle uses.now i → ⊥) }
{
    for index in 0..numbers.len() {
        if is_on_cycle(uses, groups, numbers[index]) {
            return Some(numbers[index]);
        }
    }
    None
}

/// The number of the first synonym whose body leads to it through synonyms alone, if there is one: of the first
/// dependency group of the declarations that has one, the first in the order of the source (Haskell 2010 Report,
/// section 4.2.2).
pub fn first_on_cycle(alloc: Global, decls: &[GroupDecl]) -> Result<Option<u64>, AllocError>
    ensures { IfOk result (λ o. IsFirstOnCycle (decls_of decls.now) o) }
{
    let uses = all_uses(alloc, decls)?;
    let order = groups(alloc, &uses)?;
    let numbers = in_groups(alloc, order.as_slice())?;
    let synonyms = all_synonym_uses(alloc, decls)?;
    let cycles = groups(alloc, &synonyms)?;
    Ok(first_of(synonyms.as_slice(), cycles.as_slice(), numbers.as_slice()))
}

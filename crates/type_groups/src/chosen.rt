//! The declarations of each group.
ghost use Rattle.std.specs.Prelude.{◌≡◌, ◌++◌, ◌∷◌, [], IfOk, OnOk, map};
ghost use Rattle.hs_core.specs.WellTyped.{chosen};
ghost use Rattle.kind_check.specs.Scopes.{decls_of};
ghost use Rattle.type_groups.specs.Uses.{group_decls, AreTypeGroups};

use crate::uses::all_uses;
use bp_base::copied_names;
use hs_core::{ConDecls, IndexGroup, groups};
use kind_check::{GroupDecl, GroupDecls, Says, TypeGroup};
use sqlite_items::{Items, at};
use std::alloc::{AllocError, Global};

/// Groups in order.
pub type TypeGroups = Items<TypeGroup>;

fn copied_cons(alloc: Global, cons: &ConDecls) -> Result<ConDecls, AllocError>
    ensures { IfOk result (λ r. r ≡ cons.now) }
{
    let mut all = Items::new(alloc);
    for each in cons.as_slice() {
        all.push(each.copied(alloc)?)?;
    }
    Ok(all)
}

fn copied_says(alloc: Global, says: &Says) -> Result<Says, AllocError>
    ensures { IfOk result (λ r. r ≡ says.now) }
{
    match says {
        Says::Fields { cons } => Ok(Says::Fields {
            cons: copied_cons(alloc, cons)?,
        }),
        Says::Synonym { body } => Ok(Says::Synonym {
            body: body.copied(alloc)?,
        }),
    }
}

fn copied_decl(alloc: Global, decl: &GroupDecl) -> Result<GroupDecl, AllocError>
    ensures { IfOk result (λ r. r ≡ decl.now) }
{
    Ok(GroupDecl {
        name: decl.name.copied(alloc)?,
        params: copied_names(alloc, &decl.params)?,
        says: copied_says(alloc, &decl.says)?,
    })
}

// The declaration of a number, where there is one, joins the others.
fn add_member(
    alloc: Global,
    decls: &[GroupDecl],
    member: u64,
    all: &mut GroupDecls,
) -> Result<(), AllocError>
    ensures { OnOk result (all.new ≡ all.old ++ chosen decls.now (member ∷ [])) }
{
    match at(decls, member as usize) {
        Some(decl) => all.push(copied_decl(alloc, decl)?),
        None => Ok(()),
    }
}

// The declarations of these numbers.
fn group_of(alloc: Global, decls: &[GroupDecl], members: &[u64]) -> Result<TypeGroup, AllocError>
    ensures { IfOk result (λ g. g.decls ≡ chosen decls.now members.now) }
{
    let mut all = Items::new(alloc);
    for index in 0..members.len() {
        add_member(alloc, decls, members[index], &mut all)?;
    }
    Ok(TypeGroup { decls: all })
}

/// The declarations of each group, by their numbers.
pub fn all_groups(
    alloc: Global,
    decls: &[GroupDecl],
    members: &[IndexGroup],
) -> Result<TypeGroups, AllocError>
    ensures { IfOk result (λ gs. map group_decls gs ≡ map (λ g. chosen decls.now g.members) members.now) }
{
    let mut all = Items::new(alloc);
    for index in 0..members.len() {
        all.push(group_of(alloc, decls, members[index].members.as_slice())?)?;
    }
    Ok(all)
}

/// The dependency groups of type declarations, each behind those that it uses: the strongly connected components in the order of
/// a depth-first walk along uses in their order. The members of a group stand in the order of the source.
pub fn type_groups(alloc: Global, decls: &GroupDecls) -> Result<TypeGroups, AllocError>
    ensures { IfOk result (λ gs. AreTypeGroups decls.now gs) }
{
    let uses = all_uses(alloc, decls.as_slice())?;
    let order = groups(alloc, &uses)?;
    all_groups(alloc, decls.as_slice(), order.as_slice())
}

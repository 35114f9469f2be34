//! Kinds and synonyms of the types that declarations write.
ghost use Rattle.std.specs.Prelude.{◌≡◌, ◌↔◌, IsTrue, IfOk};
ghost use Rattle.hs_core.specs.Types.{kind_term, star};
ghost use Rattle.kind_check.specs.Answers.{known_synonyms};
ghost use Rattle.kind_env.specs.Listings.{known_kind};
ghost use Rattle.type_drafts.specs.declared.uses.TypeUse.{TypeUse};
ghost use Rattle.kind_module.specs.Faults.{IllKinded, Misused, all_are, Finds};
ghost use Rattle.kind_module.specs.Tests.{IsStarKinded, IsFull, values_kinded, uses_full, no_cycle};

use crate::error::KindsError;
use bp_base::{Ident, Kind};
use declared_kinds::first_on_cycle;
use hs_core::{Decl, Written};
use kind_check::{Failure, KindEnv, is_full, least_kind, variables_of};
use sqlite_items::at;
use std::alloc::{AllocError, Global};
use type_drafts::{TypeUse, all_uses, type_decls, value_uses};

fn is_star(kind: &Kind) -> bool
    ensures { IsTrue result ↔ (kind_term kind.now ≡ star) }
{
    match kind {
        Kind::Star => true,
        Kind::Arrow { .. } => false,
    }
}

// Whether a written type has kind `*` for some kinds of its variables.
fn is_star_kinded(alloc: Global, ty: &Written, env: &KindEnv) -> Result<bool, AllocError>
    ensures { IfOk result (λ b. IsTrue b ↔ IsStarKinded (known_kind env.now.names) ty.now) }
{
    let names = variables_of(alloc, ty)?;
    match least_kind(alloc, ty, names.as_slice(), env.names.as_slice()) {
        Ok(kind) => Ok(is_star(&kind)),
        Err(Failure::NoKind) => Ok(false),
        Err(Failure::NoMemory) => Err(AllocError),
    }
}

// Whether each synonym in a written type is fully applied.
fn is_applied(ty: &Written, env: &KindEnv) -> Result<bool, AllocError>
    ensures { IfOk result (λ b. IsTrue b ↔ IsFull (known_synonyms env.now.names) ty.now) }
{
    match is_full(env.names.as_slice(), ty, 0) {
        Ok(full) => Ok(full),
        Err(_) => Err(AllocError),
    }
}

fn all_kinded(alloc: Global, uses: &[TypeUse], env: &KindEnv) -> Result<(), KindsError>
    ensures { Finds (all_are (λ (u : TypeUse). IsStarKinded (known_kind env.now.names) u.ty) (λ u. IllKinded u.name) uses.now) result }
{
    for index in 0..uses.len() {
        let each = &uses[index];
        if !is_star_kinded(alloc, &each.ty, env)? {
            return Err(KindsError::Kind {
                name: each.name.copied(alloc)?,
            });
        }
    }
    Ok(())
}

fn all_full(alloc: Global, uses: &[TypeUse], env: &KindEnv) -> Result<(), KindsError>
    ensures { Finds (all_are (λ (u : TypeUse). IsFull (known_synonyms env.now.names) u.ty) (λ u. Misused u.name) uses.now) result }
{
    for index in 0..uses.len() {
        let each = &uses[index];
        if !is_applied(&each.ty, env)? {
            return Err(KindsError::SynonymUse {
                name: each.name.copied(alloc)?,
            });
        }
    }
    Ok(())
}

/// The types that are written for values have kind `*`, or the first that hasn't is refused.
#[tactic(auto, unfolding(crate::specs::Tests::values_kinded))]
pub fn values_kinded(alloc: Global, decls: &[Decl], env: &KindEnv) -> Result<(), KindsError>
    ensures { Finds (values_kinded (known_kind env.now.names) decls.now) result }
{
    let uses = value_uses(alloc, decls)?;
    all_kinded(alloc, uses.as_slice(), env)
}

/// Synonyms in all types are fully applied, or the first type with one that isn't is refused.
#[tactic(auto, unfolding(crate::specs::Tests::uses_full))]
pub fn uses_full(alloc: Global, decls: &[Decl], env: &KindEnv) -> Result<(), KindsError>
    ensures { Finds (uses_full (known_synonyms env.now.names) decls.now) result }
{
    let uses = all_uses(alloc, decls)?;
    all_full(alloc, uses.as_slice(), env)
}

/// No synonym leads to itself, or the first that does is refused.
#[tactic(auto, unfolding(crate::specs::Tests::no_cycle))]
pub fn no_cycle(alloc: Global, here: &Ident, decls: &[Decl]) -> Result<(), KindsError>
    ensures { Finds (no_cycle here.now decls.now) result }
{
    let heads = type_decls(alloc, here, decls)?;
    let found = first_on_cycle(alloc, heads.as_slice())?;
    let Some(number) = found else {
        return Ok(());
    };
    match at(heads.as_slice(), number as usize) {
        Some(decl) => Err(KindsError::SynonymUse {
            name: decl.name.occ.copied(alloc)?,
        }),
        None => Err(KindsError::NoMemory),
    }
}

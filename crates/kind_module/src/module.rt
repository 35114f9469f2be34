//! The types of a module, step by step.
ghost use Rattle.std.specs.Prelude.{◌≡◌, Some};
ghost use Rattle.hs_core.specs.Globals.{globals_of};
ghost use Rattle.kind_check.specs.Answers.{known_synonyms};
ghost use Rattle.kind_env.specs.Listings.{known_kind};
ghost use Rattle.kind_module.specs.Faults.{Finds};
ghost use Rattle.kind_module.specs.Kinds.{groups_give, synonyms_lawful, types_give, kinds_give};

use crate::error::KindsError;
use crate::expand::entities_give;
use crate::written::{no_cycle, uses_full, values_kinded};
use bp_base::{Entities, Entity, Ident};
use declared_kinds::source_kinds;
use hs_core::Decl;
use kind_check::{GroupError, KindEnv, Kinds};
use kind_env::{env_of, env_within};
use std::alloc::Global;
use type_drafts::{drafts, type_decls};

// The kinds of the type declarations, group after group.
fn groups_give(
    alloc: Global,
    outside: &Entities,
    here: &Ident,
    decls: &[Decl],
) -> Result<Kinds, KindsError>
    ensures { Finds (groups_give (globals_of outside.now) here.now decls.now) result }
{
    let heads = type_decls(alloc, here, decls)?;
    let env = env_of(alloc, outside)?;
    match source_kinds(alloc, &heads, env) {
        Ok(kinds) => Ok(kinds),
        Err(GroupError::Kind { occ }) => Err(KindsError::Kind { name: occ }),
        Err(GroupError::NoMemory) => Err(KindsError::NoMemory),
    }
}

#[tactic(auto, unfolding(crate::specs::Kinds::synonyms_lawful))]
fn synonyms_lawful(
    alloc: Global,
    here: &Ident,
    decls: &[Decl],
    env: &KindEnv,
) -> Result<(), KindsError>
    ensures { Finds (synonyms_lawful (known_synonyms env.now.names) here.now decls.now) result }
{
    no_cycle(alloc, here, decls)?;
    uses_full(alloc, decls, env)
}

#[tactic(auto, unfolding(crate::specs::Kinds::types_give))]
fn types_give(
    alloc: Global,
    here: &Ident,
    decls: &[Decl],
    own: &[Entity],
    env: &KindEnv,
) -> Result<Entities, KindsError>
    ensures { Finds (types_give (Some 1000) (known_kind env.now.names) (known_synonyms env.now.names) here.now decls.now own.now) result }
{
    values_kinded(alloc, decls, env)?;
    synonyms_lawful(alloc, here, decls, env)?;
    entities_give(alloc, own, env)
}

/// The entities that the declarations of the module `here` declare, in their order, each with its kind and its types
/// expanded, where these entities are seen outside; the kinds of names are noted in their types, and the variables of
/// a value's type are numbered by first occurrence. Refused is the first that stands of these: Kind, in dependency
/// groups of type declarations and then in written types in order; SynonymUse, at the first synonym that leads to
/// itself and then at the types in which one isn't fully applied, in order; TypeDepth, of an expanded type of a
/// declaration that is deeper than 1,000 (Haskell 2010 Report, sections 4.1.2, 4.2.2 and 4.6). A type that has no
/// expansion by what is seen outside is SynonymUse of its declaration.
pub fn kinds_give(
    alloc: Global,
    outside: &Entities,
    here: &Ident,
    decls: &[Decl],
) -> Result<Entities, KindsError>
    ensures gives { Finds (kinds_give (Some 1000) (globals_of outside.now) here.now decls.now) result }
{
    let kinds = groups_give(alloc, outside, here, decls)?;
    let own = drafts(alloc, here, decls, kinds.as_slice())?;
    let env = env_within(alloc, &own, outside)?;
    types_give(alloc, here, decls, own.as_slice(), &env)
}

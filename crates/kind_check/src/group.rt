//! The kinds of a group of type declarations.
ghost use Rattle.std.specs.Prelude.{◌≡◌, IfOk, IfErr, map};
ghost use Rattle.hs_core.specs.Types.{count, kind_term};
ghost use Rattle.hs_core.specs.Kinds.{AreLeastKinds};
ghost use Rattle.kind_check.specs.Forms.{settled};
ghost use Rattle.kind_check.specs.Scopes.{decls_of, known_names, guessed};
ghost use Rattle.kind_check.specs.Walks.{HasNoKinding};
ghost use Rattle.kind_check.specs.Answers.{IsGroupError};

use crate::answer::{Kinds, settled_kinds};
use crate::decl::declare;
use crate::scope::{GroupDecl, GroupDecls, Known, Knowns};
use crate::state::Failure;
use bp_base::Name;
use sqlite_items::Items;
use std::alloc::{AllocError, Global};
use type_unify::Bindings;

/// The type declarations of one dependency group, in the order of the source.
#[derive(Debug, Drop)]
pub struct TypeGroup {
    pub decls: GroupDecls,
}

/// What names outside mean; of several meanings of a name the first counts.
#[derive(Debug, Drop)]
pub struct KindEnv {
    pub names: Knowns,
}

/// Why a group has no kinds: the occurrence of its first declaration, or no memory.
#[derive(Debug, Drop)]
pub enum GroupError {
    Kind { occ: Name },
    NoMemory,
}

impl From<AllocError> for GroupError {
    ghost use Rattle.kind_check.specs.declared.group.GroupError.{GroupError};

    ghost from_gives = { λ _ r. r ≡ GroupError.NoMemory };

    fn from(_error: AllocError) -> Self {
        GroupError::NoMemory
    }
}

// The kinds of a group's declarations, as unknowns from 0 on: the least valid kinding; NoKind exactly where there is
// none.
fn solve_group(alloc: Global, decls: &[GroupDecl], known: &[Known]) -> Result<Bindings, Failure>
    ensures ok { IfOk result (λ bs. AreLeastKinds (known_names known.now) (decls_of decls.now) (guessed (settled bs) 0 (count (decls_of decls.now)))) }
    ensures none { IfErr result (λ e. e ≡ Failure.NoKind → HasNoKinding (known_names known.now) (decls_of decls.now)) }
{
    let mut bindings = Bindings::new(alloc);
    let mut next = decls.len() as u64;
    for index in 0..decls.len() {
        declare(
            alloc,
            &decls[index],
            known,
            decls,
            index as u64,
            &mut bindings,
            &mut next,
        )?;
    }
    Ok(bindings)
}

/// The kinds of a group's declarations, in their order: the least valid kinding. NoKind exactly where there is none.
pub fn group_kinds(alloc: Global, decls: &[GroupDecl], known: &[Known]) -> Result<Kinds, Failure>
    ensures ok { IfOk result (λ ks. AreLeastKinds (known_names known.now) (decls_of decls.now) (map kind_term ks)) }
    ensures none { IfErr result (λ e. e ≡ Failure.NoKind → HasNoKinding (known_names known.now) (decls_of decls.now)) }
{
    let mut bindings = solve_group(alloc, decls, known)?;
    Ok(settled_kinds(alloc, &mut bindings, decls.len())?)
}

/// The kinds of a group's declarations, in their order: the valid kinding that is below every other one, in which what
/// is undecided is `*` (Haskell 2010 Report, section 4.6). Kind comes exactly where no kinding is valid, and names the
/// first declaration.
#[tactic(auto, using(crate::proofs::GroupLemmas::nothing_least, crate::proofs::GroupLemmas::first_named))]
pub fn kinds_of(alloc: Global, group: &TypeGroup, env: &KindEnv) -> Result<Kinds, GroupError>
    ensures ok { IfOk result (λ ks. AreLeastKinds (known_names env.now.names) (decls_of group.now.decls) (map kind_term ks)) }
    ensures err { IfErr result (λ e. IsGroupError (known_names env.now.names) group.now.decls e) }
{
    let decls = group.decls.as_slice();
    if decls.is_empty() {
        return Ok(Items::new(alloc));
    }
    match group_kinds(alloc, decls, env.names.as_slice()) {
        Ok(kinds) => Ok(kinds),
        Err(Failure::NoKind) => Err(GroupError::Kind {
            occ: decls[0].name.occ.copied(alloc)?,
        }),
        Err(Failure::NoMemory) => Err(GroupError::NoMemory),
    }
}

//! What a name may mean.
ghost use Rattle.std.specs.Prelude.{◌≡◌, IfOk};
ghost use Rattle.hs_core.specs.Sameness.{same_original, same_space};
ghost use Rattle.hs_scopes.specs.Meanings.{name_of, is_types, meaning_of, con_fixity, fixity_in};
ghost use Rattle.scope_table.specs.Candidates.{candidate_of, is_candidate};

use bp_base::{Con, Entity, Fixity, Name, OrigName, Space, fixity_of_default, same_orig_name};
use hs_scopes::ScopeItem;
use std::alloc::{AllocError, Global};

/// What an occurrence may mean behind a qualifier, which is empty for the plain name, and the fixity that it has then.
#[derive(Debug, Drop)]
pub struct Candidate {
    pub qualifier: Name,
    pub name: OrigName,
    pub fixity: Fixity,
}

/// The original name of an entity.
fn name_of(entity: &Entity) -> &OrigName
    ensures { result.now ≡ name_of entity.now }
{
    match entity {
        Entity::Abstract { name, .. } => name,
        Entity::DataType { name, .. } => name,
        Entity::Synonym { name, .. } => name,
        Entity::Value { name, .. } => name,
    }
}

fn meaning_of(alloc: Global, item: &ScopeItem) -> Result<OrigName, AllocError>
    ensures { IfOk result (λ name. name ≡ meaning_of item.now) }
{
    let name = name_of(&item.entity);
    if item.con.as_bytes().is_empty() {
        return name.copied(alloc);
    }
    Ok(OrigName {
        at: name.at.copied(alloc)?,
        space: Space::Values,
        occ: item.con.copied(alloc)?,
    })
}

fn con_fixity(name: &Name, cons: &[Con]) -> Fixity
    ensures { result ≡ con_fixity name.now cons.now }
{
    for con in cons {
        if con.occ == *name {
            return con.fixity;
        }
    }
    fixity_of_default()
}

fn fixity_in(name: &Name, entity: &Entity) -> Fixity
    ensures { result ≡ fixity_in name.now entity.now }
{
    match entity {
        Entity::Abstract { .. } => fixity_of_default(),
        Entity::DataType { cons, .. } => con_fixity(name, cons.as_slice()),
        Entity::Synonym { .. } => fixity_of_default(),
        Entity::Value { fixity, .. } => *fixity,
    }
}

/// What an item of a scope means.
pub fn candidate_of(alloc: Global, item: &ScopeItem) -> Result<Candidate, AllocError>
    ensures { IfOk result (λ candidate. candidate ≡ candidate_of item.now) }
{
    Ok(Candidate {
        qualifier: item.qualifier.copied(alloc)?,
        name: meaning_of(alloc, item)?,
        fixity: fixity_in(&item.con, &item.entity),
    })
}

fn is_space(space: Space, other: Space) -> bool
    ensures { result ≡ same_space space other }
{
    match (space, other) {
        (Space::Types, Space::Types) => true,
        (Space::Types, Space::Values) => false,
        (Space::Values, Space::Types) => false,
        (Space::Values, Space::Values) => true,
    }
}

/// Whether this is asked for.
pub fn is_candidate(candidate: &Candidate, space: Space, qualifier: &Name) -> bool
    ensures { result ≡ is_candidate space qualifier.now candidate.now }
{
    is_space(space, candidate.name.space) && candidate.qualifier == *qualifier
}

/// Whether two original names are one.
pub fn is_same(one: &OrigName, other: &OrigName) -> bool
    ensures { result ≡ same_original one.now other.now }
{
    same_orig_name(one, other)
}

//! Names by their occurrences.
ghost use Rattle.std.specs.Prelude.{◌≡◌, ◌∷◌, ◌++◌, [], List, ℕ, None, IfOk, OnOk};
ghost use Rattle.scope_table.specs.Candidates.{candidates_at, candidates_of, chosen, Chooses, says};

use crate::candidate::{Candidate, candidate_of, is_candidate, is_same};
use bp_base::{Name, Space};
use hs_scopes::{MeaningFault, Scope, ScopeItem};
use sqlite_items::Items;
use std::alloc::{AllocError, Global};
use std::collections::HashMap;

/// What each occurrence may mean.
#[derive(Drop)]
pub struct ScopeTable {
    names: HashMap<Name, Items<Candidate>>,
}

fn add_item(
    alloc: Global,
    names: &mut HashMap<Name, Items<Candidate>>,
    item: &ScopeItem,
) -> Result<(), AllocError>
    ensures { OnOk result ((q : List ℕ) → candidates_at names.new q ≡ candidates_at names.old q ++ candidates_of (item.now ∷ []) q) }
{
    let mut found = match names.remove(&item.occ) {
        Some(found) => found,
        None => Items::new(alloc),
    };
    found.push(candidate_of(alloc, item)?)?;
    names.insert(item.occ.copied(alloc)?, found)?;
    Ok(())
}

fn names_of(
    alloc: Global,
    items: &[ScopeItem],
) -> Result<HashMap<Name, Items<Candidate>>, AllocError>
    ensures { IfOk result (λ names. (q : List ℕ) → candidates_at names q ≡ candidates_of items.now q) }
{
    let mut names = HashMap::new(alloc);
    for item in items {
        add_item(alloc, &mut names, item)?;
    }
    Ok(names)
}

/// The table of a scope.
pub fn scope_table(alloc: Global, scope: &Scope) -> Result<ScopeTable, AllocError>
    ensures { IfOk result (λ table. (q : List ℕ) → says table q ≡ candidates_of scope.now.items q) }
{
    let names = names_of(alloc, scope.items.as_slice())?;
    Ok(ScopeTable { names })
}

/// The first that is asked for, where all of them are one thing.
fn chosen<'a>(
    candidates: &'a [Candidate],
    space: Space,
    qualifier: &Name,
) -> Result<&'a Candidate, MeaningFault>
    ensures { Chooses (λ c. c.now) (chosen space qualifier.now None candidates.now) result }
{
    let mut found: Option<&'a Candidate> = None;
    for candidate in candidates {
        if is_candidate(candidate, space, qualifier) {
            match found {
                Some(first) => {
                    if !is_same(&first.name, &candidate.name) {
                        return Err(MeaningFault::AmbiguousName);
                    }
                }
                None => found = Some(candidate),
            }
        }
    }
    match found {
        Some(first) => Ok(first),
        None => Err(MeaningFault::NotInScope),
    }
}

/// What an occurrence means behind a qualifier, which is empty for the plain name: the one thing that it may mean; or
/// else NotInScope where it may mean nothing, and AmbiguousName where it may mean different things (Haskell 2010 Report,
/// section 5.5.2).
pub fn meant<'a>(
    table: &'a ScopeTable,
    space: Space,
    qualifier: &Name,
    occ: &Name,
) -> Result<&'a Candidate, MeaningFault>
    ensures { Chooses (λ c. c.now) (chosen space qualifier.now None (says table.now occ.now)) result }
{
    if let Some(found) = table.names.get(occ) {
        return chosen(found.as_slice(), space, qualifier);
    }
    Err(MeaningFault::NotInScope)
}

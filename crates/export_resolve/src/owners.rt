//! Tables of original names.
ghost use Rattle.std.specs.Prelude.{◌≡◌, ◌++◌, List, ℕ, IfOk, OnOk};
ghost use Rattle.export_resolve.specs.Named.{all_at, if_named, owners_named};
ghost use Rattle.export_resolve.specs.Found.{is_owned};

use crate::meaning::is_one_of;
use bp_base::{Name, OrigName, OrigNames};
use hs_scopes::ScopeItem;
use import_resolve::name_of;
use sqlite_items::Items;
use std::alloc::{AllocError, Global};
use std::collections::HashMap;

/// Original names, by names.
pub type Owners = HashMap<Name, OrigNames>;

/// Adds an original name to those of a name.
pub fn add_owner(
    alloc: Global,
    table: &mut Owners,
    key: &Name,
    owner: &OrigName,
) -> Result<(), AllocError>
    ensures { OnOk result ((q : List ℕ) → all_at table.new q ≡ all_at table.old q ++ if_named key.now q owner.now) }
{
    let mut found = match table.remove(key) {
        Some(found) => found,
        None => Items::new(alloc),
    };
    found.push(owner.copied(alloc)?)?;
    table.insert(key.copied(alloc)?, found)?;
    Ok(())
}

/// The types of constructors, by the constructors' names.
pub fn owners_of(alloc: Global, items: &[ScopeItem]) -> Result<Owners, AllocError>
    ensures { IfOk result (λ table. (q : List ℕ) → all_at table q ≡ owners_named items.now q) }
{
    let mut table = HashMap::new(alloc);
    for item in items {
        add_owner(alloc, &mut table, &item.con, name_of(&item.entity))?;
    }
    Ok(table)
}

/// Whether a name has this original name.
pub fn is_owned(table: &Owners, owner: &OrigName, name: &Name) -> bool
    ensures { result ≡ is_owned (all_at table.now) owner.now name.now }
{
    match table.get(name) {
        Some(owners) => is_one_of(owner, owners.as_slice()),
        None => false,
    }
}

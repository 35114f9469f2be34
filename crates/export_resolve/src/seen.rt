//! What an export list looks up.
ghost use Rattle.std.specs.Prelude.{◌≡◌, ◌++◌, List, ℕ, IfOk, OnOk, None};
ghost use Rattle.export_resolve.specs.Named.{all_at, if_named, items_named};
ghost use Rattle.export_resolve.specs.Seen.{seen, seen_at};
ghost use Rattle.export_resolve.specs.Found.{Finds, found_in, is_asked, is_both, item_found};
ghost use Rattle.written_names.specs.Written.{word_at};

use crate::meaning::{has_plain, is_in, is_same_meaning};
use crate::owners::{Owners, owners_of};
use crate::qualifiers::qualifiers;
use bp_base::{Copied, Name, Space};
use hs_modules::Module;
use hs_scopes::{MeaningFault, ScopeItem, ScopeItems};
use sqlite_items::Items;
use std::alloc::{AllocError, Global};
use std::collections::{HashMap, HashSet};
use written_names::WrittenName;

/// By occurrence what is in scope, by a constructor's name the types that have it, and the names before a dot.
#[derive(Drop)]
pub struct SeenTable {
    named: HashMap<Name, ScopeItems>,
    pub owners: Owners,
    pub qualifiers: HashSet<Name>,
}

fn copied_item(alloc: Global, item: &ScopeItem) -> Result<ScopeItem, AllocError>
    ensures { IfOk result (λ copy. copy ≡ item.now) }
{
    Ok(ScopeItem {
        qualifier: item.qualifier.copied(alloc)?,
        occ: item.occ.copied(alloc)?,
        entity: item.entity.copied(alloc)?,
        con: item.con.copied(alloc)?,
    })
}

fn add_item(
    alloc: Global,
    table: &mut HashMap<Name, ScopeItems>,
    item: &ScopeItem,
) -> Result<(), AllocError>
    ensures { OnOk result ((q : List ℕ) → all_at table.new q ≡ all_at table.old q ++ if_named item.now.occ q item.now) }
{
    let mut found = match table.remove(&item.occ) {
        Some(found) => found,
        None => Items::new(alloc),
    };
    found.push(copied_item(alloc, item)?)?;
    table.insert(item.occ.copied(alloc)?, found)?;
    Ok(())
}

fn items_named(alloc: Global, items: &[ScopeItem]) -> Result<HashMap<Name, ScopeItems>, AllocError>
    ensures { IfOk result (λ table. (q : List ℕ) → all_at table q ≡ items_named items.now q) }
{
    let mut table = HashMap::new(alloc);
    for item in items {
        add_item(alloc, &mut table, item)?;
    }
    Ok(table)
}

/// What the export list of a module looks up in its scope.
pub fn seen_table(
    alloc: Global,
    module: &Module,
    items: &[ScopeItem],
) -> Result<SeenTable, AllocError>
    ensures { IfOk result (λ table. seen_at table ≡ seen «module».now items.now) }
{
    let named = items_named(alloc, items)?;
    let owners = owners_of(alloc, items)?;
    let qualifiers = qualifiers(alloc, module)?;
    Ok(SeenTable {
        named,
        owners,
        qualifiers,
    })
}

fn is_asked(item: &ScopeItem, space: Space, qualifier: &Name) -> bool
    ensures { result ≡ is_asked space qualifier.now item.now }
{
    is_in(space, item) && item.qualifier == *qualifier
}

/// The first that is asked for, where all of them are one thing.
fn found_in<'a>(
    items: &'a [ScopeItem],
    space: Space,
    qualifier: &Name,
) -> Result<&'a ScopeItem, MeaningFault>
    ensures { Finds (λ i. i.now) (found_in space qualifier.now None items.now) result }
{
    let mut found: Option<&'a ScopeItem> = None;
    for item in items {
        if is_asked(item, space, qualifier) {
            match found {
                Some(first) => {
                    if !is_same_meaning(first, item) {
                        return Err(MeaningFault::AmbiguousName);
                    }
                }
                None => found = Some(item),
            }
        }
    }
    match found {
        Some(first) => Ok(first),
        None => Err(MeaningFault::NotInScope),
    }
}

/// The first item that a written name may mean, where all of them mean one thing.
pub fn item_found<'a>(
    table: &'a SeenTable,
    space: Space,
    word: &WrittenName,
) -> Result<&'a ScopeItem, MeaningFault>
    ensures { Finds (λ i. i.now) (item_found (seen_at table.now) space (word_at word.now)) result }
{
    if let Some(items) = table.named.get(&word.occ) {
        return found_in(items.as_slice(), space, &word.qualifier);
    }
    Err(MeaningFault::NotInScope)
}

/// Whether an item stands behind this qualifier, and plainly too.
pub fn is_both(table: &SeenTable, name: &Name, item: &ScopeItem) -> bool
    ensures { result ≡ is_both (seen_at table.now) name.now item.now }
{
    if item.qualifier != *name {
        return false;
    }
    match table.named.get(&item.occ) {
        Some(items) => has_plain(item, items.as_slice()),
        None => false,
    }
}

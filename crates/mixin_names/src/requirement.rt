//! How an entry renames the requirements of a dependency.
ghost use Rattle.std.specs.Prelude.{◌≡◌, None, List, ℕ, IfOk, MatchResult};
ghost use Rattle.mixin_names.specs.Names.{linkage_name, linked, all_linked, missing_requirement, NamesRequirement};
ghost use Rattle.mixin_names.specs.Tables.{name_at};

use crate::error::NameError;
use crate::provision::first_missing;
use bp_base::{Name, Names, Rename, Renames};
use cabal_component::{Mixin, old_names};
use sqlite_items::Items;
use std::alloc::{AllocError, Global};
use std::collections::HashMap;

/// The new names by their old ones: the first, where an old name has several.
fn names_by_old(alloc: Global, needs: &[Rename]) -> Result<HashMap<Name, Name>, AllocError>
    ensures { IfOk result (λ table. (q : List ℕ) → name_at table q ≡ linkage_name needs.now q) }
{
    let mut table = HashMap::new(alloc);
    for each in needs {
        if !table.contains_key(&each.from) {
            table.insert(each.from.copied(alloc)?, each.to.copied(alloc)?)?;
        }
    }
    Ok(table)
}

/// The linkage name of a hole: its own where the table has none.
fn linkage_name(alloc: Global, table: &HashMap<Name, Name>, hole: &Name) -> Result<Name, AllocError>
    ensures { IfOk result (λ name. name ≡ name_at table.now hole.now) }
{
    match table.get(hole) {
        Some(name) => name.copied(alloc),
        None => hole.copied(alloc),
    }
}

fn linked(alloc: Global, table: &HashMap<Name, Name>, hole: &Name) -> Result<Rename, AllocError>
    ensures { IfOk result (λ rename. rename ≡ linked (name_at table.now) hole.now) }
{
    Ok(Rename {
        from: hole.copied(alloc)?,
        to: linkage_name(alloc, table, hole)?,
    })
}

/// One renaming for each hole.
fn linked_from(
    alloc: Global,
    table: &HashMap<Name, Name>,
    holes: &[Name],
) -> Result<Renames, AllocError>
    ensures { IfOk result (λ all. all ≡ all_linked (name_at table.now) holes.now) }
{
    let mut all = Items::new(alloc);
    for hole in holes {
        all.push(linked(alloc, table, hole)?)?;
    }
    Ok(all)
}

/// One renaming for each hole, by these renamings.
fn all_linked(alloc: Global, needs: &[Rename], holes: &[Name]) -> Result<Renames, AllocError>
    ensures { IfOk result (λ all. all ≡ all_linked (linkage_name needs.now) holes.now) }
{
    let table = names_by_old(alloc, needs)?;
    linked_from(alloc, &table, holes)
}

/// The first listed name that is no hole.
fn missing_requirement(
    alloc: Global,
    needs: &[Rename],
    holes: &[Name],
) -> Result<Option<Name>, AllocError>
    ensures { IfOk result (λ missing. missing ≡ missing_requirement needs.now holes.now) }
{
    let names = old_names(alloc, needs)?;
    first_missing(alloc, holes, names.as_slice())
}

/// How an entry renames the requirements of a dependency with these holes: one renaming for each hole, in their order; a hole
/// that the entry doesn't mention keeps its name (Cabal manual, "mixins"). The refusal is NoRequirement with the first listed
/// name that is no hole.
pub fn needs(alloc: Global, entry: &Mixin, holes: &Names) -> Result<Renames, NameError>
    ensures { MatchResult result
        (λ found. (missing_requirement entry.now.needs holes.now ≡ None) × (found ≡ all_linked (linkage_name entry.now.needs) holes.now))
        (λ e. NamesRequirement e (missing_requirement entry.now.needs holes.now)) }
{
    let missing = missing_requirement(alloc, entry.needs.as_slice(), holes.as_slice())?;
    if let Some(name) = missing {
        return Err(NameError::NoRequirement { name });
    }
    Ok(all_linked(alloc, entry.needs.as_slice(), holes.as_slice())?)
}

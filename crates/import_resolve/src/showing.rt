//! What exports show, and what an import list asks of them.
ghost use Rattle.std.specs.Prelude.{◌≡◌, ◌++◌, IfOk, OnOk, List, ℕ};
ghost use Rattle.std.specs.List.{flat_map};
ghost use Rattle.hs_scopes.specs.Meanings.{name_of, is_types};
ghost use Rattle.import_resolve.specs.ImportLists.{exported_value, exported_type, exported_cons, showing, unless, first_some, missing_sub, missing_in, missing};
ghost use Rattle.import_resolve.specs.Tables.{names_at};
ghost use Rattle.import_resolve.specs.Filters.{showing_at};

use crate::tables::{add_names, has_name, name_set};
use crate::written::{sub_name, var_name};
use bp_base::{Entity, Export, Name, Names, OrigName, Space, copied_names};
use hs_modules::{CNameTree, ImportList, ItemTree, SubsTree};
use sqlite_items::Items;
use std::alloc::{AllocError, Global};
use std::collections::{HashMap, HashSet};

/// The names of exported values and types, and the constructors that are exported with a type.
#[derive(Drop)]
pub struct ShowingTable {
    values: HashSet<Name>,
    types: HashSet<Name>,
    cons: HashMap<Name, Names>,
}

/// The original name of an entity.
pub fn name_of(entity: &Entity) -> &OrigName
    ensures { result.now ≡ name_of entity.now }
{
    match entity {
        Entity::Abstract { name, .. } => name,
        Entity::DataType { name, .. } => name,
        Entity::Synonym { name, .. } => name,
        Entity::Value { name, .. } => name,
    }
}

/// Whether an entity is a type.
pub fn is_type(entity: &Entity) -> bool
    ensures { result ≡ is_types (name_of entity.now).space }
{
    match name_of(entity).space {
        Space::Types => true,
        Space::Values => false,
    }
}

fn add_value(alloc: Global, names: &mut Names, export: &Export) -> Result<(), AllocError>
    ensures { OnOk result (names.new ≡ names.old ++ exported_value export.now) }
{
    if is_type(&export.entity) {
        Ok(())
    } else {
        names.push(export.occ.copied(alloc)?)
    }
}

fn add_type(alloc: Global, names: &mut Names, export: &Export) -> Result<(), AllocError>
    ensures { OnOk result (names.new ≡ names.old ++ exported_type export.now) }
{
    if is_type(&export.entity) {
        names.push(export.occ.copied(alloc)?)
    } else {
        Ok(())
    }
}

fn values_of(alloc: Global, exports: &[Export]) -> Result<Names, AllocError>
    ensures { IfOk result (λ names. names ≡ flat_map exported_value exports.now) }
{
    let mut names = Items::new(alloc);
    for export in exports {
        add_value(alloc, &mut names, export)?;
    }
    Ok(names)
}

fn types_of(alloc: Global, exports: &[Export]) -> Result<Names, AllocError>
    ensures { IfOk result (λ names. names ≡ flat_map exported_type exports.now) }
{
    let mut names = Items::new(alloc);
    for export in exports {
        add_type(alloc, &mut names, export)?;
    }
    Ok(names)
}

fn cons_of(alloc: Global, exports: &[Export]) -> Result<HashMap<Name, Names>, AllocError>
    ensures { IfOk result (λ table. (q : List ℕ) → names_at table q ≡ flat_map (exported_cons q) exports.now) }
{
    let mut table = HashMap::new(alloc);
    for export in exports {
        add_names(
            alloc,
            &mut table,
            &export.occ,
            copied_names(alloc, &export.cons)?,
        )?;
    }
    Ok(table)
}

/// What exports show.
pub fn showing_table(alloc: Global, exports: &[Export]) -> Result<ShowingTable, AllocError>
    ensures { IfOk result (λ table. showing_at table ≡ showing exports.now) }
{
    let values = values_of(alloc, exports)?;
    let types = types_of(alloc, exports)?;
    Ok(ShowingTable {
        values: name_set(alloc, values.as_slice())?,
        types: name_set(alloc, types.as_slice())?,
        cons: cons_of(alloc, exports)?,
    })
}

/// The name, where it is not there.
fn unless(alloc: Global, is_there: bool, name: &Name) -> Result<Option<Name>, AllocError>
    ensures { IfOk result (λ found. found ≡ unless is_there name.now) }
{
    if is_there {
        Ok(None)
    } else {
        Ok(Some(name.copied(alloc)?))
    }
}

/// The first listed constructor that is not exported with this type.
fn missing_sub(
    alloc: Global,
    table: &ShowingTable,
    of: &Name,
    subs: &[CNameTree],
) -> Result<Option<Name>, AllocError>
    ensures { IfOk result (λ found. found ≡ first_some (missing_sub ((showing_at table.now).cons of.now)) subs.now) }
{
    for sub in subs {
        let name = sub_name(sub);
        if !has_name(&table.cons, of, name) {
            return Ok(Some(name.copied(alloc)?));
        }
    }
    Ok(None)
}

/// The first thing that an item asks for and that is not exported.
fn missing_in(
    alloc: Global,
    table: &ShowingTable,
    item: &ItemTree,
) -> Result<Option<Name>, AllocError>
    ensures { IfOk result (λ found. found ≡ missing_in (showing_at table.now) item.now) }
{
    match item {
        ItemTree::Var(var) => {
            let name = var_name(var);
            unless(alloc, table.values.contains(name), name)
        }
        ItemTree::Type(name) => unless(alloc, table.types.contains(name), name),
        ItemTree::TypeWith(name, SubsTree::All) => {
            unless(alloc, table.types.contains(name), name)
        }
        ItemTree::TypeWith(name, SubsTree::Only(subs)) => {
            if table.types.contains(name) {
                missing_sub(alloc, table, name, subs.as_slice())
            } else {
                Ok(Some(name.copied(alloc)?))
            }
        }
    }
}

fn missing_of(
    alloc: Global,
    table: &ShowingTable,
    items: &[ItemTree],
) -> Result<Option<Name>, AllocError>
    ensures { IfOk result (λ found. found ≡ first_some (missing_in (showing_at table.now)) items.now) }
{
    for item in items {
        if let Some(name) = missing_in(alloc, table, item)? {
            return Ok(Some(name));
        }
    }
    Ok(None)
}

fn missing_listed(
    alloc: Global,
    exports: &[Export],
    items: &[ItemTree],
) -> Result<Option<Name>, AllocError>
    ensures { IfOk result (λ found. found ≡ first_some (missing_in (showing exports.now)) items.now) }
{
    let table = showing_table(alloc, exports)?;
    missing_of(alloc, &table, items)
}

/// The first thing that the list of an import asks for and that is not exported.
pub fn missing(
    alloc: Global,
    exports: &[Export],
    list: &ImportList,
) -> Result<Option<Name>, AllocError>
    ensures { IfOk result (λ found. found ≡ missing (showing exports.now) list.now) }
{
    match list {
        ImportList::Everything => Ok(None),
        ImportList::Only(items, _) => missing_listed(alloc, exports, items.as_slice()),
        ImportList::Hiding(_, _) => Ok(None),
    }
}

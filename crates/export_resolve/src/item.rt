//! What an item of an export list names.
ghost use Rattle.std.specs.Prelude.{◌≡◌, ◌++◌, IfOk, OnOk};
ghost use Rattle.import_resolve.specs.Exports.{qvar_name};
ghost use Rattle.import_resolve.specs.Scopes.{Answers};
ghost use Rattle.export_resolve.specs.Seen.{seen_at};
ghost use Rattle.export_resolve.specs.Found.{all_found, both_found, con_found, export_found, if_both_names, module_or, one_found, subs_found, thing_found, type_with};

use crate::owners::is_owned;
use crate::seen::{SeenTable, is_both, item_found};
use crate::things::{all_owned, con_thing, thing_of};
use bp_base::{Entity, Name, Space};
use hs_modules::{CNameTree, ExportTree, QVarTree, SubsTree};
use hs_scopes::{MeaningFault, ScopeItem};
use import_resolve::{ScopeError, Thing, Things, name_of, sub_name};
use sqlite_items::Items;
use std::alloc::{AllocError, Global};
use written_names::written_name;

/// The value or the type of a written name.
fn thing_found(
    alloc: Global,
    table: &SeenTable,
    space: Space,
    name: &Name,
) -> Result<Thing, ScopeError>
    ensures { Answers (thing_found (seen_at table.now) space name.now) result }
{
    let word = written_name(alloc, name)?;
    match item_found(table, space, &word) {
        Ok(item) => Ok(thing_of(alloc, item)?),
        Err(MeaningFault::NotInScope) => Err(ScopeError::NotInScope {
            name: name.copied(alloc)?,
        }),
        Err(MeaningFault::AmbiguousName) => Err(ScopeError::AmbiguousName {
            name: name.copied(alloc)?,
        }),
    }
}

/// The value or the type of a written name, alone.
pub fn one_found(
    alloc: Global,
    table: &SeenTable,
    space: Space,
    name: &Name,
) -> Result<Things, ScopeError>
    ensures { Answers (one_found (seen_at table.now) space name.now) result }
{
    let thing = thing_found(alloc, table, space, name)?;
    let mut things = Items::new(alloc);
    things.push(thing)?;
    Ok(things)
}

fn qvar_name(var: &QVarTree) -> &Name
    ensures { result.now ≡ qvar_name var.now }
{
    match var {
        QVarTree::Id(name) => name,
        QVarTree::Sym(name) => name,
        QVarTree::QualifiedId(name) => name,
        QVarTree::QualifiedSym(name) => name,
    }
}

/// A listed constructor.
fn con_found(
    alloc: Global,
    table: &SeenTable,
    entity: &Entity,
    sub: &CNameTree,
) -> Result<Things, ScopeError>
    ensures { Answers (con_found (seen_at table.now) entity.now sub.now) result }
{
    let name = sub_name(sub);
    if !is_owned(&table.owners, name_of(entity), name) {
        return Err(ScopeError::NotInScope {
            name: name.copied(alloc)?,
        });
    }
    let mut things = Items::new(alloc);
    things.push(con_thing(alloc, entity, name)?)?;
    Ok(things)
}

fn listed_found(
    alloc: Global,
    table: &SeenTable,
    entity: &Entity,
    subs: &[CNameTree],
) -> Result<Things, ScopeError>
    ensures { Answers (all_found (con_found (seen_at table.now) entity.now) subs.now) result }
{
    let mut things = Items::new(alloc);
    for sub in subs {
        let more = con_found(alloc, table, entity, sub)?;
        things.append(more)?;
    }
    Ok(things)
}

fn subs_found(
    alloc: Global,
    table: &SeenTable,
    entity: &Entity,
    subs: &SubsTree,
) -> Result<Things, ScopeError>
    ensures { Answers (subs_found (seen_at table.now) entity.now subs.now) result }
{
    match subs {
        SubsTree::All => Ok(all_owned(alloc, &table.owners, entity)?),
        SubsTree::Only(names) => listed_found(alloc, table, entity, names.as_slice()),
    }
}

/// A type with its constructors.
fn type_with(
    alloc: Global,
    table: &SeenTable,
    subs: &SubsTree,
    thing: Thing,
) -> Result<Things, ScopeError>
    ensures { Answers (type_with (seen_at table.now) subs.now thing) result }
{
    let cons = subs_found(alloc, table, &thing.entity, subs)?;
    let mut things = Items::new(alloc);
    things.push(thing)?;
    things.append(cons)?;
    Ok(things)
}

fn add_both_names(
    alloc: Global,
    things: &mut Things,
    table: &SeenTable,
    name: &Name,
    item: &ScopeItem,
) -> Result<(), AllocError>
    ensures { OnOk result (things.new ≡ things.old ++ if_both_names (seen_at table.now) name.now item.now) }
{
    if is_both(table, name, item) {
        things.push(thing_of(alloc, item)?)
    } else {
        Ok(())
    }
}

fn both_found(
    alloc: Global,
    table: &SeenTable,
    items: &[ScopeItem],
    name: &Name,
) -> Result<Things, AllocError>
    ensures { IfOk result (λ things. things ≡ both_found (seen_at table.now) items.now name.now) }
{
    let mut things = Items::new(alloc);
    for item in items {
        add_both_names(alloc, &mut things, table, name, item)?;
    }
    Ok(things)
}

/// What is in scope both plainly and behind this qualifier.
fn module_found(
    alloc: Global,
    table: &SeenTable,
    items: &[ScopeItem],
    name: &Name,
) -> Result<Things, ScopeError>
    ensures { Answers (module_or ((seen_at table.now).qualifies name.now) (both_found (seen_at table.now) items.now name.now) name.now) result }
{
    if table.qualifiers.contains(name) {
        Ok(both_found(alloc, table, items, name)?)
    } else {
        Err(ScopeError::NotInScope {
            name: name.copied(alloc)?,
        })
    }
}

/// What an item of an export list names.
pub fn export_found(
    alloc: Global,
    table: &SeenTable,
    items: &[ScopeItem],
    export: &ExportTree,
) -> Result<Things, ScopeError>
    ensures { Answers (export_found (seen_at table.now) items.now export.now) result }
{
    match export {
        ExportTree::Var(var) => one_found(alloc, table, Space::Values, qvar_name(var)),
        ExportTree::Type(name) => one_found(alloc, table, Space::Types, name),
        ExportTree::TypeWith(name, subs) => {
            let thing = thing_found(alloc, table, Space::Types, name)?;
            type_with(alloc, table, subs, thing)
        }
        ExportTree::Module(name) => module_found(alloc, table, items, name),
    }
}

//! What imports bring into scope.
ghost use Rattle.std.specs.Prelude.{◌≡◌, IfOk, map, []};
ghost use Rattle.std.specs.List.{flat_map, list_any};
ghost use Rattle.import_resolve.specs.Filters.{filter_at};
ghost use Rattle.import_resolve.specs.Scopes.{Answers, item_at, head_items, con_items, items_of, brought, brought_by, alias_or, import_name, ShowsOne, one_shown, shown_at, imported_from, imported};

use crate::error::ScopeError;
use crate::filter::{FilterTable, filter_table, lets_con, lets_head};
use crate::showing::{is_type, missing};
use crate::visible::Visible;
use bp_base::{Copied, Entity, Export, Exports, Interface, Name};
use hs_modules::ImpDeclTree;
use hs_scopes::{ScopeItem, ScopeItems};
use sqlite_items::Items;
use std::alloc::{AllocError, Global};

/// A thing under a name, behind a qualifier.
fn item_at(
    alloc: Global,
    qualifier: &Name,
    entity: &Entity,
    occ: &Name,
    con: Name,
) -> Result<ScopeItem, AllocError>
    ensures { IfOk result (λ item. item ≡ item_at qualifier.now entity.now occ.now con) }
{
    Ok(ScopeItem {
        qualifier: qualifier.copied(alloc)?,
        occ: occ.copied(alloc)?,
        entity: entity.copied(alloc)?,
        con,
    })
}

/// An exported name, where it is let in.
fn head_items(
    alloc: Global,
    qualifier: &Name,
    filter: &FilterTable,
    export: &Export,
) -> Result<ScopeItems, AllocError>
    ensures { IfOk result (λ items. items ≡ head_items qualifier.now (filter_at filter.now) export.now) }
{
    let mut items = Items::new(alloc);
    if lets_head(filter, is_type(&export.entity), &export.occ) {
        let con = Name::from_vec(Vec::new(alloc));
        items.push(item_at(alloc, qualifier, &export.entity, &export.occ, con)?)?;
    }
    Ok(items)
}

/// The constructors of an exported type that are let in.
fn con_items(
    alloc: Global,
    qualifier: &Name,
    filter: &FilterTable,
    export: &Export,
) -> Result<ScopeItems, AllocError>
    ensures { IfOk result (λ items. items ≡ con_items qualifier.now (filter_at filter.now) export.now.entity export.now.occ export.now.cons) }
{
    let mut items = Items::new(alloc);
    for con in export.cons.as_slice() {
        if lets_con(filter, &export.occ, con) {
            let name = con.copied(alloc)?;
            items.push(item_at(alloc, qualifier, &export.entity, con, name)?)?;
        }
    }
    Ok(items)
}

/// What is let in of an export.
fn items_of(
    alloc: Global,
    qualifier: &Name,
    filter: &FilterTable,
    export: &Export,
) -> Result<ScopeItems, AllocError>
    ensures { IfOk result (λ items. items ≡ items_of qualifier.now (filter_at filter.now) export.now) }
{
    let mut items = head_items(alloc, qualifier, filter, export)?;
    items.append(con_items(alloc, qualifier, filter, export)?)?;
    Ok(items)
}

/// What is let in of exports, behind a qualifier.
fn brought(
    alloc: Global,
    qualifier: &Name,
    filter: &FilterTable,
    exports: &[Export],
) -> Result<ScopeItems, AllocError>
    ensures { IfOk result (λ items. items ≡ brought qualifier.now (filter_at filter.now) exports.now) }
{
    let mut items = Items::new(alloc);
    for export in exports {
        items.append(items_of(alloc, qualifier, filter, export)?)?;
    }
    Ok(items)
}

/// What is let in of exports, plainly and behind a qualifier, or behind it alone.
pub fn brought_by(
    alloc: Global,
    qualified: bool,
    qualifier: &Name,
    filter: &FilterTable,
    exports: &[Export],
) -> Result<ScopeItems, AllocError>
    ensures { IfOk result (λ items. items ≡ brought_by qualified qualifier.now (filter_at filter.now) exports.now) }
{
    if qualified {
        return brought(alloc, qualifier, filter, exports);
    }
    let plain = Name::from_vec(Vec::new(alloc));
    let mut items = brought(alloc, &plain, filter, exports)?;
    items.append(brought(alloc, qualifier, filter, exports)?)?;
    Ok(items)
}

/// The name before the dot of what an import brings.
pub fn import_name(import: &ImpDeclTree) -> &Name
    ensures { result.now ≡ import_name import.now }
{
    match &import.alias {
        Some(alias) => alias,
        None => &import.modid,
    }
}

/// The exports of the one interface that an imported name shows.
fn one_shown<'a>(
    alloc: Global,
    name: &Name,
    shows: &'a [Interface],
) -> Result<&'a Exports, ScopeError>
    ensures { ShowsOne (λ es. es.now) (one_shown name.now shows.now) result }
{
    match shows {
        [] => Err(ScopeError::NoModule {
            name: name.copied(alloc)?,
        }),
        [one] => Ok(&one.exports),
        _ => Err(ScopeError::AmbiguousModule {
            name: name.copied(alloc)?,
        }),
    }
}

fn shown_at<'a>(
    alloc: Global,
    name: &Name,
    visible: &'a [Visible],
) -> Result<&'a Exports, ScopeError>
    ensures { ShowsOne (λ es. es.now) (shown_at name.now visible.now) result }
{
    for each in visible {
        if each.name == *name {
            return one_shown(alloc, name, each.shows.as_slice());
        }
    }
    Err(ScopeError::NoModule {
        name: name.copied(alloc)?,
    })
}

/// What an import brings of a module with these exports.
fn imported_from(
    alloc: Global,
    import: &ImpDeclTree,
    exports: &[Export],
) -> Result<ScopeItems, ScopeError>
    ensures { Answers (imported_from import.now exports.now) result }
{
    if let Some(name) = missing(alloc, exports, &import.list)? {
        return Err(ScopeError::NotInScope { name });
    }
    let filter = filter_table(alloc, &import.list)?;
    let qualifier = import_name(import);
    let items = brought_by(alloc, import.qualified, qualifier, &filter, exports)?;
    Ok(items)
}

/// What an import brings.
pub fn imported(
    alloc: Global,
    visible: &[Visible],
    import: &ImpDeclTree,
) -> Result<ScopeItems, ScopeError>
    ensures { Answers (imported visible.now import.now) result }
{
    let exports = shown_at(alloc, &import.modid, visible)?;
    imported_from(alloc, import, exports.as_slice())
}

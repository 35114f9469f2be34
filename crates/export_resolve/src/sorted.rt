//! Exports in order.
ghost use Rattle.std.specs.Prelude.{◌≡◌, ◌++◌, List, ℕ, IfOk, OnOk};
ghost use Rattle.hs_scopes.specs.Meanings.{name_of};
ghost use Rattle.bp_base.specs.declared.entity.Export.{Export};
ghost use Rattle.import_resolve.specs.Exports.{inserted, sorted};
ghost use Rattle.export_resolve.specs.Named.{all_at};
ghost use Rattle.export_resolve.specs.Found.{cons_of};
ghost use Rattle.export_resolve.specs.Whole.{all_exports, con_owners, export_as, if_head_export, if_offered, offered_among};
ghost use Rattle.export_resolve.specs.Sorting.{key_of, tagged};

use crate::owners::{Owners, add_owner, is_owned};
use crate::things::is_con;
use bp_base::{Con, Copied, Entity, Export, Exports, Name, Names, OrigName};
use import_resolve::{Thing, is_type, name_of};
use sqlite_items::Items;
use std::alloc::{AllocError, Global};
use std::collections::{BTreeMap, HashMap};

/// The types of constructors that are offered, by the constructors' names.
fn con_owners(alloc: Global, things: &[Thing]) -> Result<Owners, AllocError>
    ensures { IfOk result (λ table. (q : List ℕ) → all_at table q ≡ con_owners things.now q) }
{
    let mut table = HashMap::new(alloc);
    for thing in things {
        add_owner(alloc, &mut table, &thing.con, name_of(&thing.entity))?;
    }
    Ok(table)
}

fn add_offered(
    alloc: Global,
    names: &mut Names,
    owners: &Owners,
    of: &OrigName,
    con: &Con,
) -> Result<(), AllocError>
    ensures { OnOk result (names.new ≡ names.old ++ if_offered (all_at owners.now) of.now con.now) }
{
    if is_owned(owners, of, &con.occ) {
        names.push(con.occ.copied(alloc)?)
    } else {
        Ok(())
    }
}

fn offered_among(
    alloc: Global,
    owners: &Owners,
    of: &OrigName,
    cons: &[Con],
) -> Result<Names, AllocError>
    ensures { IfOk result (λ names. names ≡ offered_among (all_at owners.now) of.now cons.now) }
{
    let mut names = Items::new(alloc);
    for con in cons {
        add_offered(alloc, &mut names, owners, of, con)?;
    }
    Ok(names)
}

/// The constructors of a type that are offered.
fn offered_cons(alloc: Global, owners: &Owners, entity: &Entity) -> Result<Names, AllocError>
    ensures { IfOk result (λ names. names ≡ offered_among (all_at owners.now) (name_of entity.now) (cons_of entity.now)) }
{
    match entity {
        Entity::Abstract { .. } => Ok(Items::new(alloc)),
        Entity::DataType { cons, .. } => {
            offered_among(alloc, owners, name_of(entity), cons.as_slice())
        }
        Entity::Synonym { .. } => Ok(Items::new(alloc)),
        Entity::Value { .. } => Ok(Items::new(alloc)),
    }
}

fn export_as(alloc: Global, owners: &Owners, thing: &Thing) -> Result<Export, AllocError>
    ensures { IfOk result (λ export. export ≡ export_as (all_at owners.now) thing.now) }
{
    Ok(Export {
        occ: thing.occ.copied(alloc)?,
        entity: thing.entity.copied(alloc)?,
        cons: offered_cons(alloc, owners, &thing.entity)?,
    })
}

fn add_head_export(
    alloc: Global,
    exports: &mut Exports,
    owners: &Owners,
    thing: &Thing,
) -> Result<(), AllocError>
    ensures { OnOk result (exports.new ≡ exports.old ++ if_head_export (all_at owners.now) thing.now) }
{
    if is_con(thing) {
        return Ok(());
    }
    exports.push(export_as(alloc, owners, thing)?)
}

fn exports_by(alloc: Global, owners: &Owners, things: &[Thing]) -> Result<Exports, AllocError>
    ensures { IfOk result (λ exports. exports ≡ all_exports (all_at owners.now) things.now) }
{
    let mut exports = Items::new(alloc);
    for thing in things {
        add_head_export(alloc, &mut exports, owners, thing)?;
    }
    Ok(exports)
}

/// The values and types among these, each with its constructors among them.
pub fn all_exports(alloc: Global, things: &[Thing]) -> Result<Exports, AllocError>
    ensures { IfOk result (λ exports. exports ≡ all_exports (con_owners things.now) things.now) }
{
    let owners = con_owners(alloc, things)?;
    exports_by(alloc, &owners, things)
}

/// Where an export stands: types before values, each by occurrence.
fn key_of(alloc: Global, export: &Export) -> Result<(bool, Name), AllocError>
    ensures { IfOk result (λ key. key ≡ key_of export.now) }
{
    Ok((!is_type(&export.entity), export.occ.copied(alloc)?))
}

/// Puts an export at its place.
fn put_in(
    alloc: Global,
    table: &mut BTreeMap<(bool, Name), Export>,
    export: Export,
) -> Result<(), AllocError>
    ensures { OnOk result ((into : List Export) → table.old.entries ≡ tagged into → table.new.entries ≡ tagged (inserted «export» into)) }
{
    let key = key_of(alloc, &export)?;
    table.insert(key, export)?;
    Ok(())
}

/// The exports by their keys, where the first of one key stays.
fn by_key(alloc: Global, exports: Exports) -> Result<BTreeMap<(bool, Name), Export>, AllocError>
    ensures { IfOk result (λ table. table.entries ≡ tagged (sorted exports)) }
{
    let mut rest = exports;
    let mut table = BTreeMap::new(alloc);
    while let Some(export) = rest.pop() {
        put_in(alloc, &mut table, export)?;
    }
    Ok(table)
}

/// The exports in order, where of two of one name and space the first stays.
pub fn sorted(alloc: Global, exports: Exports) -> Result<Exports, AllocError>
    ensures { IfOk result (λ all. all ≡ sorted exports) }
{
    let mut table = by_key(alloc, exports)?;
    let mut all = Items::new(alloc);
    while let Some((_, export)) = table.pop_first() {
        all.push(export)?;
    }
    Ok(all)
}

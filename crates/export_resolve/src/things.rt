//! What is exported, name by name.
ghost use Rattle.std.specs.Prelude.{◌≡◌, ◌++◌, List, IfOk, OnOk};
ghost use Rattle.bp_base.specs.declared.entity.Con.{Con};
ghost use Rattle.hs_scopes.specs.Words.{is_empty};
ghost use Rattle.import_resolve.specs.Exports.{con_thing, is_con, thing_of, things_of, things};
ghost use Rattle.export_resolve.specs.Named.{all_at};
ghost use Rattle.export_resolve.specs.Found.{all_owned, cons_of, if_owned, owned_of};

use crate::owners::{Owners, is_owned};
use bp_base::{Con, Copied, Entity, Export, Name};
use hs_scopes::ScopeItem;
use import_resolve::{Thing, Things, name_of};
use sqlite_items::Items;
use std::alloc::{AllocError, Global};

/// What an item of a scope stands for.
pub fn thing_of(alloc: Global, item: &ScopeItem) -> Result<Thing, AllocError>
    ensures { IfOk result (λ thing. thing ≡ thing_of item.now) }
{
    Ok(Thing {
        occ: item.occ.copied(alloc)?,
        entity: item.entity.copied(alloc)?,
        con: item.con.copied(alloc)?,
    })
}

/// A constructor under its name.
pub fn con_thing(alloc: Global, entity: &Entity, con: &Name) -> Result<Thing, AllocError>
    ensures { IfOk result (λ thing. thing ≡ con_thing entity.now con.now) }
{
    Ok(Thing {
        occ: con.copied(alloc)?,
        entity: entity.copied(alloc)?,
        con: con.copied(alloc)?,
    })
}

/// Whether it is a constructor.
pub fn is_con(thing: &Thing) -> bool
    ensures { result ≡ is_con thing.now }
{
    !thing.con.as_bytes().is_empty()
}

fn add_owned(
    alloc: Global,
    things: &mut Things,
    owners: &Owners,
    entity: &Entity,
    con: &Con,
) -> Result<(), AllocError>
    ensures { OnOk result (things.new ≡ things.old ++ if_owned (all_at owners.now) entity.now con.now) }
{
    if is_owned(owners, name_of(entity), &con.occ) {
        things.push(con_thing(alloc, entity, &con.occ)?)
    } else {
        Ok(())
    }
}

fn owned_of(
    alloc: Global,
    owners: &Owners,
    entity: &Entity,
    cons: &[Con],
) -> Result<Things, AllocError>
    ensures { IfOk result (λ things. things ≡ owned_of (all_at owners.now) entity.now cons.now) }
{
    let mut things = Items::new(alloc);
    for con in cons {
        add_owned(alloc, &mut things, owners, entity, con)?;
    }
    Ok(things)
}

/// The constructors of a type that these are the owners of.
pub fn all_owned(alloc: Global, owners: &Owners, entity: &Entity) -> Result<Things, AllocError>
    ensures { IfOk result (λ things. things ≡ all_owned (all_at owners.now) entity.now) }
{
    match entity {
        Entity::Abstract { .. } => Ok(Items::new(alloc)),
        Entity::DataType { cons, .. } => owned_of(alloc, owners, entity, cons.as_slice()),
        Entity::Synonym { .. } => Ok(Items::new(alloc)),
        Entity::Value { .. } => Ok(Items::new(alloc)),
    }
}

fn add_export(alloc: Global, things: &mut Things, export: &Export) -> Result<(), AllocError>
    ensures { OnOk result (things.new ≡ things.old ++ things_of export.now) }
{
    things.push(Thing {
        occ: export.occ.copied(alloc)?,
        entity: export.entity.copied(alloc)?,
        con: Name::from_vec(Vec::new(alloc)),
    })?;
    for con in export.cons.as_slice() {
        things.push(con_thing(alloc, &export.entity, con)?)?;
    }
    Ok(())
}

/// What exports stand for, name by name.
pub fn things_of(alloc: Global, exports: &[Export]) -> Result<Things, AllocError>
    ensures { IfOk result (λ all. all ≡ things exports.now) }
{
    let mut all = Items::new(alloc);
    for export in exports {
        add_export(alloc, &mut all, export)?;
    }
    Ok(all)
}

//! Names that stand for two different things.
ghost use Rattle.std.specs.Prelude.{◌≡◌, ◌++◌, List, ℕ, IfOk, OnOk, None};
ghost use Rattle.std.specs.Option.{option_copied};
ghost use Rattle.export_resolve.specs.Named.{all_at};
ghost use Rattle.export_resolve.specs.Clashes.{all_meant, clash_among, clash_of, clashes, has_type, heads_named, if_head, if_typed, least, least_clash};
ghost use Rattle.export_resolve.specs.Firsts.{firsts_at};

use crate::clash::{FirstTable, Meanings, Meant, first_at, first_table};
use crate::meaning::{is_same, meant_by};
use crate::owners::{Owners, add_owner, is_owned};
use crate::things::is_con;
use bp_base::Name;
use import_resolve::{Thing, name_of};
use sqlite_items::Items;
use std::alloc::{AllocError, Global};
use std::collections::HashMap;

fn add_head(alloc: Global, table: &mut Owners, thing: &Thing) -> Result<(), AllocError>
    ensures { OnOk result ((q : List ℕ) → all_at table.new q ≡ all_at table.old q ++ if_head q thing.now) }
{
    if is_con(thing) {
        return Ok(());
    }
    let name = name_of(&thing.entity);
    add_owner(alloc, table, &name.occ, name)
}

/// The values and types that are exported, by their occurrences.
fn heads_named(alloc: Global, things: &[Thing]) -> Result<Owners, AllocError>
    ensures { IfOk result (λ table. (q : List ℕ) → all_at table q ≡ heads_named things.now q) }
{
    let mut table = HashMap::new(alloc);
    for thing in things {
        add_head(alloc, &mut table, thing)?;
    }
    Ok(table)
}

/// Whether a thing is exported: a constructor only with its type.
fn has_type(heads: &Owners, thing: &Thing) -> bool
    ensures { result ≡ has_type (all_at heads.now) thing.now }
{
    let name = name_of(&thing.entity);
    is_owned(heads, name, &name.occ)
}

fn add_meant(
    alloc: Global,
    meanings: &mut Meanings,
    heads: &Owners,
    thing: &Thing,
) -> Result<(), AllocError>
    ensures { OnOk result (meanings.new ≡ meanings.old ++ if_typed (all_at heads.now) thing.now) }
{
    if has_type(heads, thing) {
        meanings.push(Meant {
            occ: thing.occ.copied(alloc)?,
            name: meant_by(alloc, &thing.con, &thing.entity)?,
        })
    } else {
        Ok(())
    }
}

fn meanings_of(alloc: Global, heads: &Owners, things: &[Thing]) -> Result<Meanings, AllocError>
    ensures { IfOk result (λ meanings. meanings ≡ all_meant (all_at heads.now) things.now) }
{
    let mut meanings = Items::new(alloc);
    for thing in things {
        add_meant(alloc, &mut meanings, heads, thing)?;
    }
    Ok(meanings)
}

fn all_meant(alloc: Global, things: &[Thing]) -> Result<Meanings, AllocError>
    ensures { IfOk result (λ meanings. meanings ≡ all_meant (heads_named things.now) things.now) }
{
    let heads = heads_named(alloc, things)?;
    meanings_of(alloc, &heads, things)
}

/// Whether the first of this name means something else.
fn clashes(firsts: &FirstTable, meant: &Meant) -> bool
    ensures { result ≡ clashes (firsts_at firsts.now) meant.now }
{
    match first_at(firsts, meant.name.space, &meant.occ) {
        Some(first) => !is_same(first, &meant.name),
        None => false,
    }
}

/// The lesser of two names.
fn least<'a>(found: Option<&'a Name>, name: &'a Name) -> Option<&'a Name>
    ensures { option_copied result ≡ least (option_copied found.entry) name.now }
{
    match found {
        Some(other) => {
            if *name < *other {
                Some(name)
            } else {
                Some(other)
            }
        }
        None => Some(name),
    }
}

/// The least name that clashes.
fn least_clash<'a>(firsts: &FirstTable, meanings: &'a [Meant]) -> Option<&'a Name>
    ensures { option_copied result ≡ least_clash (firsts_at firsts.now) None meanings.now }
{
    let mut found: Option<&'a Name> = None;
    for meant in meanings {
        if clashes(firsts, meant) {
            found = least(found, &meant.occ);
        }
    }
    found
}

fn clash_among(alloc: Global, meanings: &[Meant]) -> Result<Option<Name>, AllocError>
    ensures { IfOk result (λ found. found ≡ clash_among meanings.now) }
{
    let firsts = first_table(alloc, meanings)?;
    match least_clash(&firsts, meanings) {
        Some(name) => Ok(Some(name.copied(alloc)?)),
        None => Ok(None),
    }
}

/// The least name under which two different types or two different values would be exported.
pub fn clash_of(alloc: Global, things: &[Thing]) -> Result<Option<Name>, AllocError>
    ensures { IfOk result (λ found. found ≡ clash_of things.now) }
{
    let meanings = all_meant(alloc, things)?;
    clash_among(alloc, meanings.as_slice())
}

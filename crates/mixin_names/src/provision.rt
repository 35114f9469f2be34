//! What an entry brings of a dependency.
ghost use Rattle.std.specs.Prelude.{◌≡◌, ◌++◌, ◌∷◌, [], None, List, ℕ, IfOk, OnOk, MatchResult, map, not};
ghost use Rattle.std.specs.List.{filter, flat_map};
ghost use Rattle.bp_base.specs.Lists.{is_among};
ghost use Rattle.mixin_names.specs.Names.{provided_names, first_missing, under, provisions_of, brought, provided, named_by, missing_provision, NamesProvision};
ghost use Rattle.mixin_names.specs.Tables.{provisions_at};

use crate::error::NameError;
use bp_base::{Name, Names, Provision, Provisions, Rename, copied_names, copied_provisions};
use cabal_component::{Mixin, Provides, old_names};
use cabal_text::seen::name_set;
use sqlite_items::Items;
use std::alloc::{AllocError, Global};
use std::collections::HashMap;

/// The first of names that isn't one of these.
pub fn first_missing(
    alloc: Global,
    there: &[Name],
    names: &[Name],
) -> Result<Option<Name>, AllocError>
    ensures { IfOk result (λ missing. missing ≡ first_missing there.now names.now) }
{
    let set = name_set(alloc, there)?;
    for name in names {
        if !set.contains(name) {
            return Ok(Some(name.copied(alloc)?));
        }
    }
    Ok(None)
}

/// The names under which modules are provided.
fn provided_names(alloc: Global, exposed: &[Provision]) -> Result<Names, AllocError>
    ensures { IfOk result (λ names. names ≡ provided_names exposed.now) }
{
    let mut names = Items::new(alloc);
    for each in exposed {
        names.push(each.name.copied(alloc)?)?;
    }
    Ok(names)
}

/// The provision under another name.
fn under(alloc: Global, name: &Name, provision: &Provision) -> Result<Provision, AllocError>
    ensures { IfOk result (λ found. found ≡ under name.now provision.now) }
{
    Ok(Provision {
        name: name.copied(alloc)?,
        ident: provision.ident.copied(alloc)?,
    })
}

/// Adds a provision to those of its name.
fn add_provision(
    alloc: Global,
    table: &mut HashMap<Name, Provisions>,
    provision: &Provision,
) -> Result<(), AllocError>
    ensures { OnOk result ((q : List ℕ) → provisions_at table.new q ≡ provisions_at table.old q ++ provisions_of (provision.now ∷ []) q) }
{
    let mut found = match table.remove(&provision.name) {
        Some(found) => found,
        None => Items::new(alloc),
    };
    found.push(provision.copied(alloc)?)?;
    table.insert(provision.name.copied(alloc)?, found)?;
    Ok(())
}

/// The provisions by their names.
fn provisions_by_name(
    alloc: Global,
    exposed: &[Provision],
) -> Result<HashMap<Name, Provisions>, AllocError>
    ensures { IfOk result (λ table. (q : List ℕ) → provisions_at table q ≡ provisions_of exposed.now q) }
{
    let mut table = HashMap::new(alloc);
    for each in exposed {
        add_provision(alloc, &mut table, each)?;
    }
    Ok(table)
}

/// The provisions under another name.
fn all_under(alloc: Global, name: &Name, found: &[Provision]) -> Result<Provisions, AllocError>
    ensures { IfOk result (λ all. all ≡ map (under name.now) found.now) }
{
    let mut all = Items::new(alloc);
    for each in found {
        all.push(under(alloc, name, each)?)?;
    }
    Ok(all)
}

/// What an item brings: every provision of its old name, in their order, under its new name.
fn brought(
    alloc: Global,
    table: &HashMap<Name, Provisions>,
    item: &Rename,
) -> Result<Provisions, AllocError>
    ensures { IfOk result (λ found. found ≡ brought (provisions_at table.now) item.now) }
{
    match table.get(&item.from) {
        Some(found) => all_under(alloc, &item.to, found.as_slice()),
        None => Ok(Items::new(alloc)),
    }
}

/// What items bring.
fn brought_from(
    alloc: Global,
    table: &HashMap<Name, Provisions>,
    items: &[Rename],
) -> Result<Provisions, AllocError>
    ensures { IfOk result (λ found. found ≡ flat_map (brought (provisions_at table.now)) items.now) }
{
    let mut found = Items::new(alloc);
    for item in items {
        found.append(brought(alloc, table, item)?)?;
    }
    Ok(found)
}

/// What items bring of these modules.
fn all_brought(
    alloc: Global,
    exposed: &[Provision],
    items: &[Rename],
) -> Result<Provisions, AllocError>
    ensures { IfOk result (λ found. found ≡ flat_map (brought (provisions_of exposed.now)) items.now) }
{
    let table = provisions_by_name(alloc, exposed)?;
    brought_from(alloc, &table, items)
}

/// What isn't hidden.
fn unhidden(alloc: Global, exposed: &[Provision], names: &[Name]) -> Result<Provisions, AllocError>
    ensures { IfOk result (λ found. found ≡ filter (λ p. not (is_among p.name names.now)) exposed.now) }
{
    let hidden = name_set(alloc, names)?;
    let mut found = Items::new(alloc);
    for each in exposed {
        if !hidden.contains(&each.name) {
            found.push(each.copied(alloc)?)?;
        }
    }
    Ok(found)
}

/// What an entry brings where all its names are there.
fn provided(
    alloc: Global,
    provides: &Provides,
    exposed: &Provisions,
) -> Result<Provisions, AllocError>
    ensures { IfOk result (λ found. found ≡ provided provides.now exposed.now) }
{
    match provides {
        Provides::Whole => copied_provisions(alloc, exposed),
        Provides::Listed { items } => all_brought(alloc, exposed.as_slice(), items.as_slice()),
        Provides::Hiding { names } => unhidden(alloc, exposed.as_slice(), names.as_slice()),
    }
}

/// The names that an entry lists or hides.
fn named_by(alloc: Global, provides: &Provides) -> Result<Names, AllocError>
    ensures { IfOk result (λ names. names ≡ named_by provides.now) }
{
    match provides {
        Provides::Whole => Ok(Items::new(alloc)),
        Provides::Listed { items } => old_names(alloc, items.as_slice()),
        Provides::Hiding { names } => copied_names(alloc, names),
    }
}

/// The first listed or hidden name that isn't exposed.
fn missing_provision(
    alloc: Global,
    provides: &Provides,
    exposed: &Provisions,
) -> Result<Option<Name>, AllocError>
    ensures { IfOk result (λ missing. missing ≡ missing_provision provides.now exposed.now) }
{
    let there = provided_names(alloc, exposed.as_slice())?;
    let names = named_by(alloc, provides)?;
    first_missing(alloc, there.as_slice(), names.as_slice())
}

/// What an entry brings of a dependency that exposes these modules: all of them; each listed one under its new name, by item and
/// then in their order; or all but the hidden ones (Cabal manual, "mixins"). The refusal is NoProvision with the first listed or
/// hidden name that isn't exposed.
pub fn provides(alloc: Global, entry: &Mixin, exposed: &Provisions) -> Result<Provisions, NameError>
    ensures { MatchResult result
        (λ found. (missing_provision entry.now.provides exposed.now ≡ None) × (found ≡ provided entry.now.provides exposed.now))
        (λ e. NamesProvision e (missing_provision entry.now.provides exposed.now)) }
{
    if let Some(name) = missing_provision(alloc, &entry.provides, exposed)? {
        return Err(NameError::NoProvision { name });
    }
    Ok(provided(alloc, &entry.provides, exposed)?)
}

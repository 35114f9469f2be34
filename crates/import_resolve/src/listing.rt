//! What items of import lists name.
ghost use Rattle.std.specs.Prelude.{◌≡◌, ◌++◌, IfOk, OnOk, List, ℕ, map};
ghost use Rattle.std.specs.List.{flat_map};
ghost use Rattle.std.specs.HashSet.{contains};
ghost use Rattle.std.specs.Str.{bytes_eq};
ghost use Rattle.bp_base.specs.Lists.{is_among};
ghost use Rattle.import_resolve.specs.ImportLists.{sub_name, listed_value, listed_type, bare_type, whole_type, listed_cons, lists_head, lists_con, listing};
ghost use Rattle.import_resolve.specs.Tables.{names_at};
ghost use Rattle.import_resolve.specs.Filters.{listing_at};

use crate::tables::{add_names, has_name, name_set};
use crate::written::{sub_name, var_name};
use bp_base::{Name, Names};
use hs_modules::{CNameTree, ItemTree, SubsTree};
use sqlite_items::Items;
use std::alloc::{AllocError, Global};
use std::collections::{HashMap, HashSet};

/// What a list names: variables; types; types by their bare names; types with `(..)`; and the constructors that are
/// listed with a type.
#[derive(Drop)]
pub struct ListingTable {
    values: HashSet<Name>,
    types: HashSet<Name>,
    bares: HashSet<Name>,
    wholes: HashSet<Name>,
    cons: HashMap<Name, Names>,
}

fn add_value(alloc: Global, names: &mut Names, item: &ItemTree) -> Result<(), AllocError>
    ensures { OnOk result (names.new ≡ names.old ++ listed_value item.now) }
{
    match item {
        ItemTree::Var(var) => names.push(var_name(var).copied(alloc)?),
        ItemTree::Type(_) => Ok(()),
        ItemTree::TypeWith(_, _) => Ok(()),
    }
}

fn add_type(alloc: Global, names: &mut Names, item: &ItemTree) -> Result<(), AllocError>
    ensures { OnOk result (names.new ≡ names.old ++ listed_type item.now) }
{
    match item {
        ItemTree::Var(_) => Ok(()),
        ItemTree::Type(name) => names.push(name.copied(alloc)?),
        ItemTree::TypeWith(name, _) => names.push(name.copied(alloc)?),
    }
}

fn add_bare(alloc: Global, names: &mut Names, item: &ItemTree) -> Result<(), AllocError>
    ensures { OnOk result (names.new ≡ names.old ++ bare_type item.now) }
{
    match item {
        ItemTree::Var(_) => Ok(()),
        ItemTree::Type(name) => names.push(name.copied(alloc)?),
        ItemTree::TypeWith(_, _) => Ok(()),
    }
}

fn add_whole(alloc: Global, names: &mut Names, item: &ItemTree) -> Result<(), AllocError>
    ensures { OnOk result (names.new ≡ names.old ++ whole_type item.now) }
{
    match item {
        ItemTree::Var(_) => Ok(()),
        ItemTree::Type(_) => Ok(()),
        ItemTree::TypeWith(name, SubsTree::All) => names.push(name.copied(alloc)?),
        ItemTree::TypeWith(_, SubsTree::Only(_)) => Ok(()),
    }
}

fn values_of(alloc: Global, items: &[ItemTree]) -> Result<Names, AllocError>
    ensures { IfOk result (λ names. names ≡ flat_map listed_value items.now) }
{
    let mut names = Items::new(alloc);
    for item in items {
        add_value(alloc, &mut names, item)?;
    }
    Ok(names)
}

fn types_of(alloc: Global, items: &[ItemTree]) -> Result<Names, AllocError>
    ensures { IfOk result (λ names. names ≡ flat_map listed_type items.now) }
{
    let mut names = Items::new(alloc);
    for item in items {
        add_type(alloc, &mut names, item)?;
    }
    Ok(names)
}

fn bares_of(alloc: Global, items: &[ItemTree]) -> Result<Names, AllocError>
    ensures { IfOk result (λ names. names ≡ flat_map bare_type items.now) }
{
    let mut names = Items::new(alloc);
    for item in items {
        add_bare(alloc, &mut names, item)?;
    }
    Ok(names)
}

fn wholes_of(alloc: Global, items: &[ItemTree]) -> Result<Names, AllocError>
    ensures { IfOk result (λ names. names ≡ flat_map whole_type items.now) }
{
    let mut names = Items::new(alloc);
    for item in items {
        add_whole(alloc, &mut names, item)?;
    }
    Ok(names)
}

/// The listed variables.
fn value_set(alloc: Global, items: &[ItemTree]) -> Result<HashSet<Name>, AllocError>
    ensures { IfOk result (λ set. (q : List ℕ) → contains bytes_eq set q ≡ is_among q (flat_map listed_value items.now)) }
{
    let names = values_of(alloc, items)?;
    name_set(alloc, names.as_slice())
}

/// The listed types.
fn type_set(alloc: Global, items: &[ItemTree]) -> Result<HashSet<Name>, AllocError>
    ensures { IfOk result (λ set. (q : List ℕ) → contains bytes_eq set q ≡ is_among q (flat_map listed_type items.now)) }
{
    let names = types_of(alloc, items)?;
    name_set(alloc, names.as_slice())
}

/// The types that are listed by their bare names.
fn bare_set(alloc: Global, items: &[ItemTree]) -> Result<HashSet<Name>, AllocError>
    ensures { IfOk result (λ set. (q : List ℕ) → contains bytes_eq set q ≡ is_among q (flat_map bare_type items.now)) }
{
    let names = bares_of(alloc, items)?;
    name_set(alloc, names.as_slice())
}

/// The types that are listed with `(..)`.
fn whole_set(alloc: Global, items: &[ItemTree]) -> Result<HashSet<Name>, AllocError>
    ensures { IfOk result (λ set. (q : List ℕ) → contains bytes_eq set q ≡ is_among q (flat_map whole_type items.now)) }
{
    let names = wholes_of(alloc, items)?;
    name_set(alloc, names.as_slice())
}

fn sub_names(alloc: Global, subs: &[CNameTree]) -> Result<Names, AllocError>
    ensures { IfOk result (λ names. names ≡ map sub_name subs.now) }
{
    let mut names = Items::new(alloc);
    for sub in subs {
        names.push(sub_name(sub).copied(alloc)?)?;
    }
    Ok(names)
}

/// Adds the constructors that an item lists to those of their type.
fn add_cons(
    alloc: Global,
    table: &mut HashMap<Name, Names>,
    item: &ItemTree,
) -> Result<(), AllocError>
    ensures { OnOk result ((q : List ℕ) → names_at table.new q ≡ names_at table.old q ++ listed_cons q item.now) }
{
    match item {
        ItemTree::Var(_) => Ok(()),
        ItemTree::Type(_) => Ok(()),
        ItemTree::TypeWith(_, SubsTree::All) => Ok(()),
        ItemTree::TypeWith(name, SubsTree::Only(subs)) => {
            add_names(alloc, table, name, sub_names(alloc, subs.as_slice())?)
        }
    }
}

fn cons_of(alloc: Global, items: &[ItemTree]) -> Result<HashMap<Name, Names>, AllocError>
    ensures { IfOk result (λ table. (q : List ℕ) → names_at table q ≡ flat_map (listed_cons q) items.now) }
{
    let mut table = HashMap::new(alloc);
    for item in items {
        add_cons(alloc, &mut table, item)?;
    }
    Ok(table)
}

/// What these items name.
pub fn listing_table(alloc: Global, items: &[ItemTree]) -> Result<ListingTable, AllocError>
    ensures { IfOk result (λ table. listing_at table ≡ listing items.now) }
{
    Ok(ListingTable {
        values: value_set(alloc, items)?,
        types: type_set(alloc, items)?,
        bares: bare_set(alloc, items)?,
        wholes: whole_set(alloc, items)?,
        cons: cons_of(alloc, items)?,
    })
}

/// Whether a type or a value of this name is listed.
pub fn lists_head(table: &ListingTable, is_type: bool, name: &Name) -> bool
    ensures { result ≡ lists_head (listing_at table.now) is_type name.now }
{
    if is_type {
        table.types.contains(name)
    } else {
        table.values.contains(name)
    }
}

/// Whether a constructor is listed with its type.
pub fn lists_con(table: &ListingTable, of: &Name, name: &Name) -> bool
    ensures { result ≡ lists_con (listing_at table.now) of.now name.now }
{
    table.wholes.contains(of) || has_name(&table.cons, of, name)
}

/// Whether a type is listed by this bare name.
pub fn lists_bare(table: &ListingTable, name: &Name) -> bool
    ensures { result ≡ (listing_at table.now).bares name.now }
{
    table.bares.contains(name)
}

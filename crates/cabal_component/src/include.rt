//! What a component includes.
ghost use Rattle.std.specs.Prelude.{◌≡◌, ◌++◌, ◌∷◌, [], List, ℕ, IfOk, OnOk};
ghost use Rattle.std.specs.List.{flat_map};
ghost use Rattle.cabal_component.specs.Includes.{whole, entries_for, or_whole, included, includes_of};
ghost use Rattle.cabal_component.specs.Tables.{entries_at};

use crate::component::{Component, Mixin, Mixins, Provides, copied_mixins};
use bp_base::Name;
use sqlite_items::Items;
use std::alloc::{AllocError, Global};
use std::collections::HashMap;

/// Adds an entry to those of its dependency.
fn add_entry(
    alloc: Global,
    table: &mut HashMap<Name, Mixins>,
    mixin: &Mixin,
) -> Result<(), AllocError>
    ensures { OnOk result ((dep : List ℕ) → entries_at table.new dep ≡ entries_at table.old dep ++ entries_for dep (mixin.now ∷ [])) }
{
    let mut entries = match table.remove(&mixin.dep) {
        Some(entries) => entries,
        None => Items::new(alloc),
    };
    entries.push(mixin.copied(alloc)?)?;
    table.insert(mixin.dep.copied(alloc)?, entries)?;
    Ok(())
}

/// The entries by their dependencies.
fn entries_by_dep(alloc: Global, mixins: &[Mixin]) -> Result<HashMap<Name, Mixins>, AllocError>
    ensures { IfOk result (λ table. (dep : List ℕ) → entries_at table dep ≡ entries_for dep mixins.now) }
{
    let mut table = HashMap::new(alloc);
    for mixin in mixins {
        add_entry(alloc, &mut table, mixin)?;
    }
    Ok(table)
}

/// A dependency, whole.
fn whole(alloc: Global, dep: &Name) -> Result<Mixin, AllocError>
    ensures { IfOk result (λ mixin. mixin ≡ whole dep.now) }
{
    Ok(Mixin {
        dep: dep.copied(alloc)?,
        provides: Provides::Whole,
        needs: Items::new(alloc),
    })
}

/// The includes of a dependency: its entries, or the whole of it where it has none.
fn included(alloc: Global, table: &HashMap<Name, Mixins>, dep: &Name) -> Result<Mixins, AllocError>
    ensures { IfOk result (λ found. found ≡ included (entries_at table.now) dep.now) }
{
    let mut found = match table.get(dep) {
        Some(entries) => copied_mixins(alloc, entries)?,
        None => Items::new(alloc),
    };
    if found.is_empty() {
        found.push(whole(alloc, dep)?)?;
    }
    Ok(found)
}

/// What dependencies include.
fn all_included(
    alloc: Global,
    table: &HashMap<Name, Mixins>,
    deps: &[Name],
) -> Result<Mixins, AllocError>
    ensures { IfOk result (λ all. all ≡ flat_map (included (entries_at table.now)) deps.now) }
{
    let mut all = Items::new(alloc);
    for dep in deps {
        all.append(included(alloc, table, dep)?)?;
    }
    Ok(all)
}

/// What a component includes, ordered by dependency and then by entry: a dependency once for each of its entries, and once,
/// whole, where it has none (Cabal manual, "mixins").
pub fn includes(alloc: Global, component: &Component) -> Result<Mixins, AllocError>
    ensures { IfOk result (λ all. all ≡ includes_of component.now) }
{
    let table = entries_by_dep(alloc, component.mixins.as_slice())?;
    all_included(alloc, &table, component.deps.as_slice())
}

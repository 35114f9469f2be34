//! Sets of names, and lists of names by a name.
ghost use Rattle.std.specs.Prelude.{◌≡◌, ◌++◌, List, ℕ, [], IfOk, OnOk, ◌||◌, if◌then◌else◌};
ghost use Rattle.std.specs.HashSet.{contains};
ghost use Rattle.std.specs.Str.{bytes_eq};
ghost use Rattle.bp_base.specs.Lists.{is_among};
ghost use Rattle.import_resolve.specs.Tables.{names_at};

use bp_base::{Name, Names};
use sqlite_items::Items;
use std::alloc::{AllocError, Global};
use std::collections::{HashMap, HashSet};

/// Adds a name.
fn add_name(alloc: Global, set: &mut HashSet<Name>, name: &Name) -> Result<(), AllocError>
    ensures { OnOk result ((q : List ℕ) → contains bytes_eq set.new q ≡ (bytes_eq q name.now || contains bytes_eq set.old q)) }
{
    set.insert(name.copied(alloc)?)?;
    Ok(())
}

/// The names as a set.
pub fn name_set(alloc: Global, names: &[Name]) -> Result<HashSet<Name>, AllocError>
    ensures { IfOk result (λ set. (q : List ℕ) → contains bytes_eq set q ≡ is_among q names.now) }
{
    let mut set = HashSet::new(alloc);
    for name in names {
        add_name(alloc, &mut set, name)?;
    }
    Ok(set)
}

/// Adds names to those of a name.
pub fn add_names(
    alloc: Global,
    table: &mut HashMap<Name, Names>,
    key: &Name,
    names: Names,
) -> Result<(), AllocError>
    ensures { OnOk result ((q : List ℕ) → names_at table.new q ≡ names_at table.old q ++ (if bytes_eq key.now q then names else [])) }
{
    let mut found = match table.remove(key) {
        Some(found) => found,
        None => Items::new(alloc),
    };
    found.append(names)?;
    table.insert(key.copied(alloc)?, found)?;
    Ok(())
}

/// Whether a name is one of those that the table has of a name.
pub fn has_name(table: &HashMap<Name, Names>, key: &Name, name: &Name) -> bool
    ensures { result ≡ is_among name.now (names_at table.now key.now) }
{
    match table.get(key) {
        Some(names) => names.as_slice().iter().any(|each| *name == *each),
        None => false,
    }
}

//! The first meaning of each name.
ghost use Rattle.std.specs.Prelude.{◌≡◌, List, ℕ, IfOk, OnOk};
ghost use Rattle.std.specs.HashMap.{get};
ghost use Rattle.std.specs.Option.{option_copied};
ghost use Rattle.std.specs.Str.{bytes_eq};
ghost use Rattle.bp_base.specs.declared.ty.Space.{Space};
ghost use Rattle.export_resolve.specs.Clashes.{first_at, firsts_of, if_first, sooner};
ghost use Rattle.export_resolve.specs.Firsts.{firsts_at};

use crate::meaning::is_space;
use bp_base::{Name, OrigName, Space};
use sqlite_items::Items;
use std::alloc::{AllocError, Global};
use std::collections::HashMap;

/// A name and what it means.
#[derive(Debug, Drop)]
pub struct Meant {
    pub occ: Name,
    pub name: OrigName,
}

/// Names with what they mean.
pub type Meanings = Items<Meant>;

/// What the first type and the first value of each name mean.
#[derive(Drop)]
pub struct FirstTable {
    types: HashMap<Name, OrigName>,
    values: HashMap<Name, OrigName>,
}

fn add_first(
    alloc: Global,
    table: &mut HashMap<Name, OrigName>,
    space: Space,
    meant: &Meant,
) -> Result<(), AllocError>
    ensures { OnOk result ((q : List ℕ) → get bytes_eq table.new q ≡ sooner (get bytes_eq table.old q) (if_first space q meant.now)) }
{
    if is_space(space, meant.name.space) && !table.contains_key(&meant.occ) {
        table.insert(meant.occ.copied(alloc)?, meant.name.copied(alloc)?)?;
    }
    Ok(())
}

fn firsts_in(
    alloc: Global,
    space: Space,
    meanings: &[Meant],
) -> Result<HashMap<Name, OrigName>, AllocError>
    ensures { IfOk result (λ table. (q : List ℕ) → get bytes_eq table q ≡ first_at space q meanings.now) }
{
    let mut table = HashMap::new(alloc);
    for meant in meanings {
        add_first(alloc, &mut table, space, meant)?;
    }
    Ok(table)
}

/// The first meanings of these.
pub fn first_table(alloc: Global, meanings: &[Meant]) -> Result<FirstTable, AllocError>
    ensures { IfOk result (λ table. (space : Space) (q : List ℕ) → firsts_at table space q ≡ first_at space q meanings.now) }
{
    let types = firsts_in(alloc, Space::Types, meanings)?;
    let values = firsts_in(alloc, Space::Values, meanings)?;
    Ok(FirstTable { types, values })
}

/// What the first of this name means.
pub fn first_at<'a>(table: &'a FirstTable, space: Space, name: &Name) -> Option<&'a OrigName>
    ensures { option_copied result ≡ firsts_at table.now space name.now }
{
    match space {
        Space::Types => table.types.get(name),
        Space::Values => table.values.get(name),
    }
}

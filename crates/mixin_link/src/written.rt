//! Linkings written down.
ghost use Rattle.std.specs.Prelude.{◌≡◌, List, ℕ, IfOk, map};
ghost use Rattle.std.specs.HashMap.{get};
ghost use Rattle.std.specs.Str.{bytes_eq};
ghost use Rattle.unit_identity.specs.Fill.{at_hole, found};
ghost use Rattle.mixin_link.specs.Linkings.{fills_under};
ghost use Rattle.mixin_link.specs.Tables.{ident_in};
ghost use Rattle.mixin_link.specs.Answers.{is_hole, holes_left, assigned, provision_in, include_under, linking_under};

use crate::open::{OpenInclude, OpenIncludes};
use bp_base::{
    Fill, Fills, Ident, Include, Includes, Linking, Name, Names, Provision, Provisions, Rename,
    Unit, copied_renames,
};
use sqlite_items::Items;
use std::alloc::{AllocError, Global};
use std::collections::HashMap;
use unit_identity::fill;

/// What fills put at holes, by the holes: the first fill of each.
fn idents_by_hole(alloc: Global, fills: &[Fill]) -> Result<HashMap<Name, Ident>, AllocError>
    ensures { IfOk result (λ table. (q : List ℕ) → get bytes_eq table q ≡ found q fills.now) }
{
    let mut table = HashMap::new(alloc);
    let mut place = fills.len();
    while place > 0 {
        place -= 1;
        let hole = fills[place].hole.copied(alloc)?;
        let ident = fills[place].ident.copied(alloc)?;
        table.insert(hole, ident)?;
    }
    Ok(table)
}

/// The identity of a name.
fn identity_of(
    alloc: Global,
    table: &HashMap<Name, Ident>,
    name: &Name,
) -> Result<Ident, AllocError>
    ensures { IfOk result (λ i. i ≡ ident_in table.now name.now) }
{
    match table.get(name) {
        Some(found) => found.copied(alloc),
        None => Ok(Ident::Hole {
            name: name.copied(alloc)?,
        }),
    }
}

/// A name with its identity.
fn assigned(
    alloc: Global,
    table: &HashMap<Name, Ident>,
    name: &Name,
) -> Result<Provision, AllocError>
    ensures { IfOk result (λ p. p ≡ assigned (ident_in table.now) name.now) }
{
    Ok(Provision {
        name: name.copied(alloc)?,
        ident: identity_of(alloc, table, name)?,
    })
}

/// Names with their identities.
fn all_assigned(
    alloc: Global,
    table: &HashMap<Name, Ident>,
    names: &[Name],
) -> Result<Provisions, AllocError>
    ensures { IfOk result (λ all. all ≡ map (assigned (ident_in table.now)) names.now) }
{
    let mut all = Items::new(alloc);
    for name in names {
        all.push(assigned(alloc, table, name)?)?;
    }
    Ok(all)
}

/// Whether a name is assigned itself.
fn is_left(table: &HashMap<Name, Ident>, name: &Name) -> bool
    ensures { result ≡ is_hole name.now (ident_in table.now name.now) }
{
    match table.get(name) {
        Some(Ident::Hole { name: hole }) => *hole == *name,
        Some(Ident::Module { .. }) => false,
        None => true,
    }
}

/// The names that are assigned themselves.
fn holes_left(
    alloc: Global,
    table: &HashMap<Name, Ident>,
    names: &[Name],
) -> Result<Names, AllocError>
    ensures { IfOk result (λ holes. holes ≡ holes_left (ident_in table.now) names.now) }
{
    let mut holes = Items::new(alloc);
    for name in names {
        if is_left(table, name) {
            holes.push(name.copied(alloc)?)?;
        }
    }
    Ok(holes)
}

/// The fills of an include: each hole has the identity of its linkage name.
fn fills_under(
    alloc: Global,
    table: &HashMap<Name, Ident>,
    needs: &[Rename],
) -> Result<Fills, AllocError>
    ensures { IfOk result (λ all. all ≡ fills_under (ident_in table.now) needs.now) }
{
    let mut all = Items::new(alloc);
    for need in needs {
        all.push(Fill {
            hole: need.from.copied(alloc)?,
            ident: identity_of(alloc, table, &need.to)?,
        })?;
    }
    Ok(all)
}

/// A provision in the unit with these fills.
fn provision_in(
    alloc: Global,
    fills: &Fills,
    provision: &Provision,
) -> Result<Provision, AllocError>
    ensures { IfOk result (λ p. p ≡ provision_in fills.now provision.now) }
{
    Ok(Provision {
        name: provision.name.copied(alloc)?,
        ident: fill(alloc, &provision.ident, fills)?,
    })
}

/// Provisions in the unit with these fills.
fn provisions_in(
    alloc: Global,
    fills: &Fills,
    provides: &[Provision],
) -> Result<Provisions, AllocError>
    ensures { IfOk result (λ all. all ≡ map (provision_in fills.now) provides.now) }
{
    let mut all = Items::new(alloc);
    for provision in provides {
        all.push(provision_in(alloc, fills, provision)?)?;
    }
    Ok(all)
}

/// An include with its unit.
fn include_under(
    alloc: Global,
    table: &HashMap<Name, Ident>,
    include: &OpenInclude,
) -> Result<Include, AllocError>
    ensures { IfOk result (λ i. i ≡ include_under (ident_in table.now) include.now) }
{
    let unit_fills = fills_under(alloc, table, include.needs.as_slice())?;
    let provides = provisions_in(alloc, &unit_fills, include.provides.as_slice())?;
    let component = include.component.copied(alloc)?;
    let needs = copied_renames(alloc, &include.needs)?;
    Ok(Include {
        unit: Unit {
            component,
            fills: unit_fills,
        },
        provides,
        needs,
    })
}

/// Includes with their units.
fn includes_under(
    alloc: Global,
    table: &HashMap<Name, Ident>,
    includes: &[OpenInclude],
) -> Result<Includes, AllocError>
    ensures { IfOk result (λ all. all ≡ map (include_under (ident_in table.now)) includes.now) }
{
    let mut all = Items::new(alloc);
    for include in includes {
        all.push(include_under(alloc, table, include)?)?;
    }
    Ok(all)
}

/// The linking that this table gives.
fn linking_from(
    alloc: Global,
    table: &HashMap<Name, Ident>,
    required: &Names,
    includes: &OpenIncludes,
) -> Result<Linking, AllocError>
    ensures { IfOk result (λ l. l ≡ linking_under (ident_in table.now) required.now includes.now) }
{
    Ok(Linking {
        holes: holes_left(alloc, table, required.as_slice())?,
        required: all_assigned(alloc, table, required.as_slice())?,
        includes: includes_under(alloc, table, includes.as_slice())?,
    })
}

/// The linking that these fills give.
pub fn linking_under(
    alloc: Global,
    fills: &Fills,
    required: &Names,
    includes: &OpenIncludes,
) -> Result<Linking, AllocError>
    ensures { IfOk result (λ l. l ≡ linking_under (λ n. at_hole n fills.now) required.now includes.now) }
{
    let table = idents_by_hole(alloc, fills.as_slice())?;
    let linking = linking_from(alloc, &table, required, includes)?;
    Ok(linking)
}

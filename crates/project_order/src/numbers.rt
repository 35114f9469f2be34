//! Names by number.
ghost use Rattle.std.specs.Prelude.{◌≡◌, ℕ, List, IfOk, OnOk, unwrap_or, if◌then◌else◌, map, length, ◌++◌, ◌∷◌, []};
ghost use Rattle.std.specs.List.{flat_map};
ghost use Rattle.std.specs.HashMap.{get};
ghost use Rattle.std.specs.Str.{bytes_eq};
ghost use Rattle.project_order.specs.Order.{names_of};
ghost use Rattle.project_order.specs.Numbers.{number_in, number_at, name_at, all_names};

use bp_base::{Name, Names, copied_names};
use cabal_component::Component;
use sqlite_items::Items;
use std::alloc::{AllocError, Global};
use std::collections::HashMap;

/// The names of components, in their order.
fn component_names(alloc: Global, components: &[Component]) -> Result<Names, AllocError>
    ensures { IfOk result (λ names. names ≡ names_of components.now) }
{
    let mut names = Items::new(alloc);
    for component in components {
        names.push(component.name.copied(alloc)?)?;
    }
    Ok(names)
}

/// What components depend on, in their order.
fn dependency_names(alloc: Global, components: &[Component]) -> Result<Names, AllocError>
    ensures { IfOk result (λ names. names ≡ flat_map (λ c. c.deps) components.now) }
{
    let mut names = Items::new(alloc);
    for component in components {
        names.append(copied_names(alloc, &component.deps)?)?;
    }
    Ok(names)
}

/// The names of components, then those of what they depend on, then the target.
pub fn all_names(
    alloc: Global,
    components: &[Component],
    target: &Name,
) -> Result<Names, AllocError>
    ensures { IfOk result (λ names. names ≡ all_names components.now target.now) }
{
    let mut names = component_names(alloc, components)?;
    names.append(dependency_names(alloc, components)?)?;
    names.push(target.copied(alloc)?)?;
    Ok(names)
}

/// Gives a name this number, unless it has one.
fn add_number(
    alloc: Global,
    table: &mut HashMap<Name, u64>,
    number: u64,
    name: &Name,
) -> Result<(), AllocError>
    ensures { OnOk result ((q : List ℕ) (later : ℕ)
        → unwrap_or (get bytes_eq table.new q) later ≡ unwrap_or (get bytes_eq table.old q) (if bytes_eq name.now q then number else later)) }
{
    if !table.contains_key(name) {
        table.insert(name.copied(alloc)?, number)?;
    }
    Ok(())
}

/// The first place of each name.
pub fn numbered(alloc: Global, names: &[Name]) -> Result<HashMap<Name, u64>, AllocError>
    ensures { IfOk result (λ table. (q : List ℕ) → number_at table (length names.now) q ≡ number_in names.now q) }
{
    let mut table = HashMap::new(alloc);
    for (i, name) in names.iter().enumerate() {
        add_number(alloc, &mut table, i as u64, name)?;
    }
    Ok(table)
}

/// The number of a name; the count where it has none.
pub fn number_of(table: &HashMap<Name, u64>, count: u64, name: &Name) -> u64
    ensures { result ≡ number_at table.now count name.now }
{
    match table.get(name) {
        Some(number) => *number,
        None => count,
    }
}

/// The name of a number.
pub fn name_at(alloc: Global, names: &[Name], number: u64) -> Result<Name, AllocError>
    ensures { IfOk result (λ name. name ≡ name_at names.now number) }
{
    match names.get(number as usize) {
        Some(name) => name.copied(alloc),
        None => Name::from_bytes(alloc, b""),
    }
}

/// The names of numbers.
pub fn named(alloc: Global, names: &[Name], numbers: &[u64]) -> Result<Names, AllocError>
    ensures { IfOk result (λ all. all ≡ map (name_at names.now) numbers.now) }
{
    let mut all = Items::new(alloc);
    for number in numbers {
        all.push(name_at(alloc, names, *number)?)?;
    }
    Ok(all)
}

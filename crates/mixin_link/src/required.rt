//! Required names.
ghost use Rattle.std.specs.Prelude.{◌≡◌, ◌++◌, List, [], IfOk};
ghost use Rattle.bp_base.specs.Lists.{is_among};
ghost use Rattle.mixin_link.specs.Answers.{in_order, linkage_names, required_names, own_modules, first_taken};

use crate::open::{OpenInclude, OpenIncludes};
use bp_base::{Name, Names, Rename, copied_names};
use cabal_component::{Component, new_names};
use cabal_text::seen::name_set;
use sqlite_items::Items;
use std::alloc::{AllocError, Global};
use std::collections::BTreeSet;

/// The linkage names of what includes need.
fn linkage_names(alloc: Global, includes: &[OpenInclude]) -> Result<Names, AllocError>
    ensures { IfOk result (λ names. names ≡ linkage_names includes.now) }
{
    let mut names = Items::new(alloc);
    for include in includes {
        names.append(new_names(alloc, include.needs.as_slice())?)?;
    }
    Ok(names)
}

/// The names as a set in byte order.
fn ordered_set(alloc: Global, names: &[Name]) -> Result<BTreeSet<Name>, AllocError>
    ensures { IfOk result (λ set. set.keys ≡ in_order [] names.now) }
{
    let mut set = BTreeSet::new(alloc);
    for name in names {
        let name = name.copied(alloc)?;
        set.insert(name)?;
    }
    Ok(set)
}

/// The names in byte order, each once.
fn in_order(alloc: Global, names: &[Name]) -> Result<Names, AllocError>
    ensures { IfOk result (λ ordered. ordered ≡ in_order [] names.now) }
{
    let set = ordered_set(alloc, names)?;
    let mut ordered = Items::new(alloc);
    for name in &set {
        ordered.push(name.copied(alloc)?)?;
    }
    Ok(ordered)
}

/// The required names: the signatures and the linkage names, in byte order.
pub fn required_names(
    alloc: Global,
    signatures: &Names,
    includes: &OpenIncludes,
) -> Result<Names, AllocError>
    ensures { IfOk result (λ names. names ≡ required_names signatures.now includes.now) }
{
    let mut names = copied_names(alloc, signatures)?;
    names.append(linkage_names(alloc, includes.as_slice())?)?;
    in_order(alloc, names.as_slice())
}

/// The own modules, `Main` of an executable among them.
fn own_modules(alloc: Global, component: &Component) -> Result<Names, AllocError>
    ensures { IfOk result (λ names. names ≡ own_modules component.now) }
{
    let mut names = Items::new(alloc);
    if component.executable {
        names.push(Name::from_bytes(alloc, b"Main")?)?;
    }
    names.append(copied_names(alloc, &component.exposed)?)?;
    names.append(copied_names(alloc, &component.other)?)?;
    Ok(names)
}

/// The first of names that is one of these.
fn first_taken(alloc: Global, own: &[Name], names: &[Name]) -> Result<Option<Name>, AllocError>
    ensures { IfOk result (λ taken. taken ≡ first_taken own.now names.now) }
{
    let set = name_set(alloc, own)?;
    for name in names {
        if set.contains(name) {
            return Ok(Some(name.copied(alloc)?));
        }
    }
    Ok(None)
}

/// The least required name that an own module has.
pub fn taken_name(
    alloc: Global,
    component: &Component,
    required: &Names,
) -> Result<Option<Name>, AllocError>
    ensures { IfOk result (λ taken. taken ≡ first_taken (own_modules component.now) required.now) }
{
    let own = own_modules(alloc, component)?;
    first_taken(alloc, own.as_slice(), required.as_slice())
}

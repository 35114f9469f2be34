//! What items of a scope mean.
ghost use Rattle.std.specs.Prelude.{◌≡◌, ◌↔◌, IfOk, IsTrue};
ghost use Rattle.std.specs.List.{list_any};
ghost use Rattle.hs_core.specs.Sameness.{same_original, same_space};
ghost use Rattle.hs_scopes.specs.Meanings.{name_of, meant_by, meaning_of, is_type_item, is_in};
ghost use Rattle.export_resolve.specs.Found.{is_one_of, con_at, same_meaning, same_plain};

use bp_base::{Entity, Ident, Name, OrigName, Space, same_ident, same_orig_name};
use hs_scopes::ScopeItem;
use import_resolve::{is_type, name_of};
use std::alloc::{AllocError, Global};

/// Whether two original names are one.
pub fn is_same(one: &OrigName, other: &OrigName) -> bool
    ensures { result ≡ same_original one.now other.now }
{
    same_orig_name(one, other)
}

/// Whether a name is one of these.
pub fn is_one_of(name: &OrigName, names: &[OrigName]) -> bool
    ensures { result ≡ is_one_of name.now names.now }
{
    for other in names {
        if is_same(name, other) {
            return true;
        }
    }
    false
}

/// Whether two spaces are one.
pub fn is_space(space: Space, other: Space) -> bool
    ensures { result ≡ same_space space other }
{
    match (space, other) {
        (Space::Types, Space::Types) => true,
        (Space::Types, Space::Values) => false,
        (Space::Values, Space::Types) => false,
        (Space::Values, Space::Values) => true,
    }
}

/// What a name means: an entity, or its constructor.
pub fn meant_by(alloc: Global, con: &Name, entity: &Entity) -> Result<OrigName, AllocError>
    ensures { IfOk result (λ name. name ≡ meant_by con.now (name_of entity.now)) }
{
    let name = name_of(entity);
    if con.as_bytes().is_empty() {
        return name.copied(alloc);
    }
    Ok(OrigName {
        at: name.at.copied(alloc)?,
        space: Space::Values,
        occ: con.copied(alloc)?,
    })
}

/// Whether this is the original name of a constructor at a module.
fn is_con_at(name: &OrigName, at: &Ident, con: &Name) -> bool
    ensures { IsTrue result ↔ (name.now ≡ con_at at.now con.now) }
{
    is_space(name.space, Space::Values) && name.occ == *con && same_ident(&name.at, at)
}

/// Whether two things mean one, each an entity, or its constructor where that is not empty.
fn mean_one(one: &Name, entity: &Entity, other: &Name, beside: &Entity) -> bool
    ensures { IsTrue result ↔ (meant_by one.now (name_of entity.now) ≡ meant_by other.now (name_of beside.now)) }
{
    let name = name_of(entity);
    let next = name_of(beside);
    match (one.as_bytes(), other.as_bytes()) {
        ([], []) => same_orig_name(name, next),
        ([], [_, ..]) => is_con_at(name, &next.at, other),
        ([_, ..], []) => is_con_at(next, &name.at, one),
        ([_, ..], [_, ..]) => *one == *other && same_ident(&name.at, &next.at),
    }
}

/// Whether two items mean one thing.
pub fn is_same_meaning(one: &ScopeItem, other: &ScopeItem) -> bool
    ensures { result ≡ same_meaning one.now other.now }
{
    mean_one(&one.con, &one.entity, &other.con, &other.entity)
}

/// Whether one of these is a plain name for what the item means.
pub fn has_plain(item: &ScopeItem, others: &[ScopeItem]) -> bool
    ensures { result ≡ list_any (same_plain item.now) others.now }
{
    for other in others {
        if other.qualifier.as_bytes().is_empty() && is_same_meaning(item, other) {
            return true;
        }
    }
    false
}

/// Whether an item is the name of a type.
fn is_type_item(item: &ScopeItem) -> bool
    ensures { result ≡ is_type_item item.now }
{
    item.con.as_bytes().is_empty() && is_type(&item.entity)
}

/// Whether an item is a type or a value, as it is asked.
pub fn is_in(space: Space, item: &ScopeItem) -> bool
    ensures { result ≡ is_in space item.now }
{
    match space {
        Space::Types => is_type_item(item),
        Space::Values => !is_type_item(item),
    }
}

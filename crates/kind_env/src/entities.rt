//! What entities declare, and the kinds that their types note.
ghost use Rattle.std.specs.Prelude.{◌≡◌, ◌↔◌, ◌∷◌, [], map, flat_map, IfOk, OnOk};
ghost use Rattle.bp_base.specs.declared.ty.OrigName.{OrigName};
ghost use Rattle.hs_core.specs.Types.{KindTerm};
ghost use Rattle.hs_core.specs.Globals.{constructor_of, declared_by, noted_in, noted_by, globals_of, kinds_of, kind_in, synonyms_of};
ghost use Rattle.kind_check.specs.Scopes.{known_names};
ghost use Rattle.kind_check.specs.Answers.{known_synonyms};
ghost use Rattle.hs_core.specs.WellTyped.{globals_in};
ghost use Rattle.kind_env.specs.Listings.{Adds, noted_in_con, noted_in_field, known_kind};

use crate::special::{add_known, put};
use bp_base::{Con, Entities, Entity, Field, OrigName, Space, Ty};
use kind_check::{KindEnv, Knowns, Sense};
use sqlite_items::Items;
use std::alloc::{AllocError, Global};

fn add_con(
    alloc: Global,
    names: &mut Knowns,
    name: &OrigName,
    params: u64,
    con: &Con,
) -> Result<(), AllocError>
    ensures { OnOk result (Adds (constructor_of name.now params con.now ∷ []) names.old names.new) }
{
    let own = OrigName {
        at: name.at.copied(alloc)?,
        space: Space::Values,
        occ: con.occ.copied(alloc)?,
    };
    put(names, own, Sense::Other)
}

fn add_cons(
    alloc: Global,
    names: &mut Knowns,
    name: &OrigName,
    params: u64,
    cons: &[Con],
) -> Result<(), AllocError>
    ensures { OnOk result (Adds (map (constructor_of name.now params) cons.now) names.old names.new) }
{
    for index in 0..cons.len() {
        add_con(alloc, names, name, params, &cons[index])?;
    }
    Ok(())
}

// What an entity declares.
fn add_declared(alloc: Global, names: &mut Knowns, entity: &Entity) -> Result<(), AllocError>
    ensures { OnOk result (Adds (declared_by entity.now) names.old names.new) }
{
    match entity {
        Entity::Abstract { name, kind } => {
            let own = name.copied(alloc)?;
            let kind = kind.copied(alloc)?;
            put(names, own, Sense::TypeOf { kind })
        }
        Entity::DataType {
            name,
            kind,
            params,
            cons,
            ..
        } => {
            let own = name.copied(alloc)?;
            let kind = kind.copied(alloc)?;
            put(names, own, Sense::TypeOf { kind })?;
            add_cons(alloc, names, name, *params, cons.as_slice())
        }
        Entity::Synonym {
            name,
            kind,
            params,
            body,
        } => {
            let own = name.copied(alloc)?;
            let kind = kind.copied(alloc)?;
            let body = body.copied(alloc)?;
            let sense = Sense::SynonymOf {
                kind,
                params: *params,
                body,
            };
            put(names, own, sense)
        }
        Entity::Value { name, .. } => {
            let own = name.copied(alloc)?;
            put(names, own, Sense::Other)
        }
    }
}

// The names in a type, with the kinds that are noted at them.
fn add_noted_in(alloc: Global, names: &mut Knowns, ty: &Ty) -> Result<(), AllocError>
    ensures { OnOk result (Adds (noted_in ty.now) names.old names.new) }
{
    match ty {
        Ty::Var { .. } => Ok(()),
        Ty::Con { name, kind } => {
            let own = name.copied(alloc)?;
            let kind = kind.copied(alloc)?;
            put(names, own, Sense::TypeOf { kind })
        }
        Ty::App { fun, arg } => {
            add_noted_in(alloc, names, fun.get())?;
            add_noted_in(alloc, names, arg.get())
        }
    }
}

fn add_noted_in_con(alloc: Global, names: &mut Knowns, fields: &[Field]) -> Result<(), AllocError>
    ensures { OnOk result (Adds (flat_map noted_in_field fields.now) names.old names.new) }
{
    for index in 0..fields.len() {
        add_noted_in(alloc, names, &fields[index].ty)?;
    }
    Ok(())
}

fn add_noted_in_cons(alloc: Global, names: &mut Knowns, cons: &[Con]) -> Result<(), AllocError>
    ensures { OnOk result (Adds (flat_map noted_in_con cons.now) names.old names.new) }
{
    for index in 0..cons.len() {
        add_noted_in_con(alloc, names, cons[index].fields.as_slice())?;
    }
    Ok(())
}

// The kinds that an entity's types note.
fn add_noted(alloc: Global, names: &mut Knowns, entity: &Entity) -> Result<(), AllocError>
    ensures { OnOk result (Adds (noted_by entity.now) names.old names.new) }
{
    match entity {
        Entity::Abstract { .. } => Ok(()),
        Entity::DataType { cons, .. } => add_noted_in_cons(alloc, names, cons.as_slice()),
        Entity::Synonym { body, .. } => add_noted_in(alloc, names, body),
        Entity::Value { scheme, .. } => add_noted_in(alloc, names, &scheme.body),
    }
}

fn add_all_declared(
    alloc: Global,
    names: &mut Knowns,
    entities: &[Entity],
) -> Result<(), AllocError>
    ensures { OnOk result (Adds (flat_map declared_by entities.now) names.old names.new) }
{
    for index in 0..entities.len() {
        add_declared(alloc, names, &entities[index])?;
    }
    Ok(())
}

fn add_all_noted(alloc: Global, names: &mut Knowns, entities: &[Entity]) -> Result<(), AllocError>
    ensures { OnOk result (Adds (flat_map noted_by entities.now) names.old names.new) }
{
    for index in 0..entities.len() {
        add_noted(alloc, names, &entities[index])?;
    }
    Ok(())
}

/// What names mean where these entities are seen: what is known everywhere, then what they declare, and behind it the kinds that
/// their types note.
pub fn env_of(alloc: Global, entities: &Entities) -> Result<KindEnv, AllocError>
    ensures kinds { IfOk result (λ e. (n : OrigName) (k : KindTerm) → known_names e.names n k ↔ kinds_of (globals_of entities.now) n k) }
    ensures synonyms { IfOk result (λ e. (n : OrigName) → known_synonyms e.names n ≡ synonyms_of (globals_of entities.now) n) }
{
    let mut names = Items::new(alloc);
    add_known(alloc, &mut names)?;
    add_all_declared(alloc, &mut names, entities.as_slice())?;
    add_all_noted(alloc, &mut names, entities.as_slice())?;
    Ok(KindEnv { names })
}

/// What names mean to declarations that declare these entities, where others are seen outside: what is known everywhere, then what
/// the declarations declare, then what names mean outside.
pub fn env_within(alloc: Global, own: &Entities, outside: &Entities) -> Result<KindEnv, AllocError>
    ensures kinds { IfOk result (λ e. (n : OrigName) → known_kind e.names n ≡ kind_in (globals_in (globals_of outside.now) (flat_map declared_by own.now) n)) }
    ensures synonyms { IfOk result (λ e. (n : OrigName) → known_synonyms e.names n ≡ synonyms_of (globals_in (globals_of outside.now) (flat_map declared_by own.now)) n) }
{
    let mut names = Items::new(alloc);
    add_known(alloc, &mut names)?;
    add_all_declared(alloc, &mut names, own.as_slice())?;
    let seen = env_of(alloc, outside)?;
    let KindEnv { names: outer } = seen;
    names.append(outer)?;
    Ok(KindEnv { names })
}

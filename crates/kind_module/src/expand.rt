//! Entities with their types expanded, and the kinds of names noted at them.
ghost use Rattle.std.specs.Prelude.{◌≡◌, Some, IfOk, unwrap_or};
ghost use Rattle.type_terms.specs.Terms.{app};
ghost use Rattle.hs_core.specs.Types.{kind_term, type_term, star};
ghost use Rattle.kind_check.specs.Answers.{known_synonyms};
ghost use Rattle.kind_env.specs.Listings.{known_kind};
ghost use Rattle.kind_module.specs.Faults.{Finds};
ghost use Rattle.kind_module.specs.Expanded.{AreNoted, type_gives, field_gives, fields_give, con_gives, cons_give, data_gives, synonym_gives, value_gives};
ghost use Rattle.kind_module.specs.Expanded.{entity_gives, entities_give};

use crate::error::KindsError;
use crate::scheme::scheme_of;
use bp_base::{Con, Cons, Entities, Entity, Field, Fields, Fixity, Kind, Name, OrigName, Ty};
use kind_check::{KindEnv, Known, known_kind};
use sqlite_items::{Boxed, Items};
use std::alloc::{AllocError, Global};
use type_expand::{ExpandError, expand};

// The kind of a name, and `*` where it has none.
fn noted_kind(alloc: Global, known: &[Known], name: &OrigName) -> Result<Kind, AllocError>
    ensures { IfOk result (λ k. kind_term k ≡ unwrap_or (known_kind known.now name.now) star) }
{
    match known_kind(known, name) {
        Some(kind) => kind.copied(alloc),
        None => Ok(Kind::Star),
    }
}

#[tactic(auto, using(crate::proofs::ExpandLemmas::type_app, crate::proofs::ExpandLemmas::noted_app))]
fn applied(alloc: Global, known: &[Known], fun: Ty, arg: Ty) -> Result<Ty, AllocError>
    requires fun { AreNoted (known_kind known.now) fun }
    requires arg { AreNoted (known_kind known.now) arg }
    ensures same { IfOk result (λ t. type_term t ≡ app (type_term fun) (type_term arg)) }
    ensures noted { IfOk result (AreNoted (known_kind known.now)) }
{
    Ok(Ty::App {
        fun: Boxed::new(alloc, fun)?,
        arg: Boxed::new(alloc, arg)?,
    })
}

// The type with the kinds of its names.
fn noted(alloc: Global, known: &[Known], ty: &Ty) -> Result<Ty, AllocError>
    ensures same { IfOk result (λ t. type_term t ≡ type_term ty.now) }
    ensures noted { IfOk result (AreNoted (known_kind known.now)) }
{
    match ty {
        Ty::Var { index } => Ok(Ty::Var { index: *index }),
        Ty::Con { name, .. } => Ok(Ty::Con {
            name: name.copied(alloc)?,
            kind: noted_kind(alloc, known, name)?,
        }),
        Ty::App { fun, arg } => {
            let fun = noted(alloc, known, fun.get())?;
            let arg = noted(alloc, known, arg.get())?;
            applied(alloc, known, fun, arg)
        }
    }
}

// The expansion of a type of the declaration of a name.
#[tactic(auto, unfolding(crate::specs::Expanded::type_gives))]
fn type_gives(alloc: Global, name: &Name, ty: &Ty, env: &KindEnv) -> Result<Ty, KindsError>
    ensures { Finds (type_gives (Some 1000) (known_kind env.now.names) (known_synonyms env.now.names) name.now ty.now) result }
{
    match expand(alloc, ty, env) {
        Ok(whole) => Ok(noted(alloc, env.names.as_slice(), &whole)?),
        Err(ExpandError::SynonymUse) => Err(KindsError::SynonymUse {
            name: name.copied(alloc)?,
        }),
        Err(ExpandError::TypeDepth) => Err(KindsError::TypeDepth),
        Err(ExpandError::NoMemory) => Err(KindsError::NoMemory),
    }
}

fn field_gives(
    alloc: Global,
    name: &Name,
    field: &Field,
    env: &KindEnv,
) -> Result<Field, KindsError>
    ensures { Finds (field_gives (Some 1000) (known_kind env.now.names) (known_synonyms env.now.names) name.now field.now) result }
{
    let ty = type_gives(alloc, name, &field.ty, env)?;
    Ok(Field {
        strict: field.strict,
        ty,
    })
}

#[tactic(auto, unfolding(crate::specs::Expanded::fields_give))]
fn fields_give(
    alloc: Global,
    name: &Name,
    fields: &[Field],
    env: &KindEnv,
) -> Result<Fields, KindsError>
    ensures { Finds (fields_give (Some 1000) (known_kind env.now.names) (known_synonyms env.now.names) name.now fields.now) result }
{
    let mut all = Items::new(alloc);
    for index in 0..fields.len() {
        all.push(field_gives(alloc, name, &fields[index], env)?)?;
    }
    Ok(all)
}

fn con_gives(alloc: Global, name: &Name, con: &Con, env: &KindEnv) -> Result<Con, KindsError>
    ensures { Finds (con_gives (Some 1000) (known_kind env.now.names) (known_synonyms env.now.names) name.now con.now) result }
{
    let fields = fields_give(alloc, name, con.fields.as_slice(), env)?;
    Ok(Con {
        occ: con.occ.copied(alloc)?,
        fields,
        fixity: con.fixity,
    })
}

#[tactic(auto, unfolding(crate::specs::Expanded::cons_give))]
fn cons_give(alloc: Global, name: &Name, cons: &[Con], env: &KindEnv) -> Result<Cons, KindsError>
    ensures { Finds (cons_give (Some 1000) (known_kind env.now.names) (known_synonyms env.now.names) name.now cons.now) result }
{
    let mut all = Items::new(alloc);
    for index in 0..cons.len() {
        all.push(con_gives(alloc, name, &cons[index], env)?)?;
    }
    Ok(all)
}

fn data_gives(
    alloc: Global,
    name: &OrigName,
    kind: &Kind,
    params: u64,
    is_new: bool,
    cons: &[Con],
    env: &KindEnv,
) -> Result<Entity, KindsError>
    ensures { Finds (data_gives (Some 1000) (known_kind env.now.names) (known_synonyms env.now.names) name.now kind.now params is_new cons.now) result }
{
    let cons = cons_give(alloc, &name.occ, cons, env)?;
    Ok(Entity::DataType {
        name: name.copied(alloc)?,
        kind: kind.copied(alloc)?,
        params,
        is_new,
        cons,
    })
}

fn synonym_gives(
    alloc: Global,
    name: &OrigName,
    kind: &Kind,
    params: u64,
    body: &Ty,
    env: &KindEnv,
) -> Result<Entity, KindsError>
    ensures { Finds (synonym_gives (Some 1000) (known_kind env.now.names) (known_synonyms env.now.names) name.now kind.now params body.now) result }
{
    let body = type_gives(alloc, &name.occ, body, env)?;
    Ok(Entity::Synonym {
        name: name.copied(alloc)?,
        kind: kind.copied(alloc)?,
        params,
        body,
    })
}

fn value_gives(
    alloc: Global,
    name: &OrigName,
    ty: &Ty,
    fixity: Fixity,
    env: &KindEnv,
) -> Result<Entity, KindsError>
    ensures { Finds (value_gives (Some 1000) (known_kind env.now.names) (known_synonyms env.now.names) name.now ty.now fixity) result }
{
    let body = type_gives(alloc, &name.occ, ty, env)?;
    Ok(Entity::Value {
        name: name.copied(alloc)?,
        scheme: scheme_of(alloc, &body)?,
        fixity,
    })
}

// The entity with its types expanded.
fn entity_gives(alloc: Global, entity: &Entity, env: &KindEnv) -> Result<Entity, KindsError>
    ensures { Finds (entity_gives (Some 1000) (known_kind env.now.names) (known_synonyms env.now.names) entity.now) result }
{
    match entity {
        Entity::Abstract { name, kind } => Ok(Entity::Abstract {
            name: name.copied(alloc)?,
            kind: kind.copied(alloc)?,
        }),
        Entity::DataType {
            name,
            kind,
            params,
            is_new,
            cons,
        } => data_gives(alloc, name, kind, *params, *is_new, cons.as_slice(), env),
        Entity::Synonym {
            name,
            kind,
            params,
            body,
        } => synonym_gives(alloc, name, kind, *params, body, env),
        Entity::Value {
            name,
            scheme,
            fixity,
        } => value_gives(alloc, name, &scheme.body, *fixity, env),
    }
}

/// The entities with their types expanded, in order; a type that has no expansion or is too deep is refused.
#[tactic(auto, unfolding(crate::specs::Expanded::entities_give))]
pub fn entities_give(
    alloc: Global,
    entities: &[Entity],
    env: &KindEnv,
) -> Result<Entities, KindsError>
    ensures { Finds (entities_give (Some 1000) (known_kind env.now.names) (known_synonyms env.now.names) entities.now) result }
{
    let mut all = Items::new(alloc);
    for index in 0..entities.len() {
        all.push(entity_gives(alloc, &entities[index], env)?)?;
    }
    Ok(all)
}

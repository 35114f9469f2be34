//! Entities with types as they are written.
ghost use Rattle.std.specs.Prelude.{◌≡◌, ◌++◌, ◌+◌, IfOk, OnOk, map, drop};
ghost use Rattle.bp_base.specs.declared.ty.Space.TheVariants.{Types, Values};
ghost use Rattle.hs_core.specs.Types.{variables, count};
ghost use Rattle.hs_core.specs.WellTyped.{here};
ghost use Rattle.type_drafts.specs.Drafts.{draft_type, fixity_in, draft_field, draft_con, draft, taken, drafts};

use bp_base::{
    Con, Cons, Entities, Entity, Field, Fields, Fixity, Ident, Kind, Name, OrigName, Scheme, Space,
    Ty, fixity_of_default,
};
use hs_core::{ConDecl, Decl, FieldDecl, Written};
use kind_check::{position, variables_of};
use sqlite_items::{Boxed, Items, at};
use std::alloc::{AllocError, Global};

#[tactic(auto, using(crate::proofs::DraftLemmas::drafted))]
fn draft_app(alloc: Global, fun: Ty, arg: Ty) -> Result<Ty, AllocError>
    ensures { IfOk result (λ t. t ≡ Ty.App fun arg) }
{
    Ok(Ty::App {
        fun: Boxed::new(alloc, fun)?,
        arg: Boxed::new(alloc, arg)?,
    })
}

// The type that a written one spells, where its variables have these places.
#[tactic(auto, using(crate::proofs::DraftLemmas::drafted))]
fn draft_type(alloc: Global, params: &[Name], ty: &Written) -> Result<Ty, AllocError>
    ensures { IfOk result (λ t. t ≡ draft_type params.now ty.now) }
{
    match ty {
        Written::WVar { name } => Ok(Ty::Var {
            index: position(params, name) as u64,
        }),
        Written::WCon { name } => Ok(Ty::Con {
            name: name.copied(alloc)?,
            kind: Kind::Star,
        }),
        Written::WApp { fun, arg } => {
            let fun = draft_type(alloc, params, fun.get())?;
            let arg = draft_type(alloc, params, arg.get())?;
            draft_app(alloc, fun, arg)
        }
    }
}

// The fixity that declarations give a name.
fn fixity_in(decls: &[Decl], name: &Name) -> Fixity
    ensures { result ≡ fixity_in decls.now name.now }
{
    for index in 0..decls.len() {
        if let Decl::FixityOf { occ, fixity } = &decls[index] {
            if *occ == *name {
                return *fixity;
            }
        }
    }
    fixity_of_default()
}

fn draft_fields(alloc: Global, params: &[Name], fields: &[FieldDecl]) -> Result<Fields, AllocError>
    ensures { IfOk result (λ fs. fs ≡ map (draft_field params.now) fields.now) }
{
    let mut all = Items::new(alloc);
    for index in 0..fields.len() {
        all.push(Field {
            strict: fields[index].strict,
            ty: draft_type(alloc, params, &fields[index].ty)?,
        })?;
    }
    Ok(all)
}

fn draft_con(
    alloc: Global,
    whole: &[Decl],
    params: &[Name],
    con: &ConDecl,
) -> Result<Con, AllocError>
    ensures { IfOk result (λ c. c ≡ draft_con whole.now params.now con.now) }
{
    Ok(Con {
        occ: con.occ.copied(alloc)?,
        fields: draft_fields(alloc, params, con.fields.as_slice())?,
        fixity: fixity_in(whole, &con.occ),
    })
}

fn draft_cons(
    alloc: Global,
    whole: &[Decl],
    params: &[Name],
    cons: &[ConDecl],
) -> Result<Cons, AllocError>
    ensures { IfOk result (λ cs. cs ≡ map (draft_con whole.now params.now) cons.now) }
{
    let mut all = Items::new(alloc);
    for index in 0..cons.len() {
        all.push(draft_con(alloc, whole, params, &cons[index])?)?;
    }
    Ok(all)
}

fn name_at(alloc: Global, at: &Ident, space: Space, occ: &Name) -> Result<OrigName, AllocError>
    ensures { IfOk result (λ n. n ≡ here at.now space occ.now) }
{
    Ok(OrigName {
        at: at.copied(alloc)?,
        space,
        occ: occ.copied(alloc)?,
    })
}

// The scheme of a type signature.
fn draft_scheme(alloc: Global, ty: &Written) -> Result<Scheme, AllocError>
    ensures { IfOk result (λ s. s ≡ record { vars = count (variables ty.now); body = draft_type (variables ty.now) ty.now }) }
{
    let names = variables_of(alloc, ty)?;
    let body = draft_type(alloc, names.as_slice(), ty)?;
    Ok(Scheme {
        vars: names.len() as u64,
        body,
    })
}

fn draft_data(
    alloc: Global,
    name: OrigName,
    kind: &Kind,
    params: &[Name],
    is_new: bool,
    cons: Cons,
) -> Result<Entity, AllocError>
    ensures { IfOk result (λ e. e ≡ Entity.DataType name kind.now (count params.now) is_new cons) }
{
    Ok(Entity::DataType {
        name,
        kind: kind.copied(alloc)?,
        params: params.len() as u64,
        is_new,
        cons,
    })
}

fn draft_synonym(
    alloc: Global,
    name: OrigName,
    kind: &Kind,
    params: &[Name],
    body: &Written,
) -> Result<Entity, AllocError>
    ensures { IfOk result (λ e. e ≡ Entity.Synonym name kind.now (count params.now) (draft_type params.now body.now)) }
{
    Ok(Entity::Synonym {
        name,
        kind: kind.copied(alloc)?,
        params: params.len() as u64,
        body: draft_type(alloc, params, body)?,
    })
}

// What a declaration declares joins the others; the kind of a type is the one of this number.
fn add_draft(
    alloc: Global,
    whole: &[Decl],
    here: &Ident,
    decl: &Decl,
    kinds: &[Kind],
    next: usize,
    all: &mut Entities,
) -> Result<(), AllocError>
    ensures { OnOk result (all.new ≡ all.old ++ draft whole.now here.now decl.now (drop next kinds.now)) }
{
    match decl {
        Decl::DataDecl {
            occ,
            is_new,
            params,
            cons,
        } => {
            let Some(kind) = at(kinds, next) else {
                return Ok(());
            };
            let name = name_at(alloc, here, Space::Types, occ)?;
            let cons = draft_cons(alloc, whole, params.as_slice(), cons.as_slice())?;
            all.push(draft_data(alloc, name, kind, params.as_slice(), *is_new, cons)?)
        }
        Decl::SynonymDecl { occ, params, body } => {
            let Some(kind) = at(kinds, next) else {
                return Ok(());
            };
            let name = name_at(alloc, here, Space::Types, occ)?;
            all.push(draft_synonym(alloc, name, kind, params.as_slice(), body)?)
        }
        Decl::TypeSig { occ, ty } => {
            let name = name_at(alloc, here, Space::Values, occ)?;
            let scheme = draft_scheme(alloc, ty)?;
            let fixity = fixity_in(whole, occ);
            all.push(Entity::Value {
                name,
                scheme,
                fixity,
            })
        }
        Decl::FixityOf { .. } => Ok(()),
        Decl::Clause { .. } => Ok(()),
        Decl::PatBind { .. } => Ok(()),
    }
}

// How many kinds a declaration takes.
fn taken(decl: &Decl) -> usize
    ensures { result ≡ taken decl.now }
{
    match decl {
        Decl::DataDecl { .. } => 1,
        Decl::SynonymDecl { .. } => 1,
        Decl::TypeSig { .. } => 0,
        Decl::FixityOf { .. } => 0,
        Decl::Clause { .. } => 0,
        Decl::PatBind { .. } => 0,
    }
}

/// What the declarations of a module declare, in their order, where its types have these kinds, in their order: types
/// are as they are written, and no kinds are noted at their names yet.
pub fn drafts(
    alloc: Global,
    here: &Ident,
    decls: &[Decl],
    kinds: &[Kind],
) -> Result<Entities, AllocError>
    ensures { IfOk result (λ es. es ≡ drafts decls.now here.now decls.now kinds.now) }
{
    let mut all = Items::new(alloc);
    let mut next = 0usize;
    for index in 0..decls.len() {
        let decl = &decls[index];
        add_draft(alloc, decls, here, decl, kinds, next, &mut all)?;
        next += taken(decl);
    }
    Ok(all)
}

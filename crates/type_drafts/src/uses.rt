//! The types that declarations write, each with the declared name.
ghost use Rattle.std.specs.Prelude.{◌≡◌, ◌++◌, IfOk, OnOk, map, flat_map};
ghost use Rattle.hs_core.specs.FreeNames.{pattern_names};
ghost use Rattle.hs_core.specs.WellTyped.{written_fields};
ghost use Rattle.written_types.specs.WrittenTypes.{types_in_decl};
ghost use Rattle.type_drafts.specs.Uses.{first_name, declared_name, types_said, type_use, value_uses, all_uses};

use bp_base::{Name, Names};
use hs_core::{ConDecl, Decl, FieldDecl, Pat, Written};
use sqlite_items::Items;
use std::alloc::{AllocError, Global};
use written_types::{Writtens, add_types_of};

/// A written type, with the name whose declaration writes it; the name of a pattern binding is its first variable,
/// and has no bytes where there is none.
#[derive(Debug, Drop)]
pub struct TypeUse {
    pub name: Name,
    pub ty: Written,
}

/// Written types in order.
pub type TypeUses = Items<TypeUse>;

// The variables of a pattern go behind the others.
#[cycle(names)]
#[tactic(auto, using(crate::proofs::UseLemmas::pattern_equations, std::proofs::lemmas::Grind::common_steps))]
fn add_names(alloc: Global, pat: &Pat, all: &mut Names) -> Result<(), AllocError>
    ensures { OnOk result (all.new ≡ all.old ++ pattern_names pat.now) }
{
    match pat {
        Pat::PVar { name } => all.push(name.copied(alloc)?),
        Pat::PWild => Ok(()),
        Pat::PInt { .. } => Ok(()),
        Pat::PChr { .. } => Ok(()),
        Pat::PStr { .. } => Ok(()),
        Pat::PCon { args, .. } => add_all_names(alloc, args.as_slice(), all),
        Pat::PTuple { parts } => add_all_names(alloc, parts.as_slice(), all),
        Pat::PList { parts } => add_all_names(alloc, parts.as_slice(), all),
        Pat::PAs { name, pat } => {
            all.push(name.copied(alloc)?)?;
            add_names(alloc, pat.get(), all)
        }
        Pat::PLazy { pat } => add_names(alloc, pat.get(), all),
    }
}

#[cycle(names)]
fn add_all_names(alloc: Global, pats: &[Pat], all: &mut Names) -> Result<(), AllocError>
    ensures { OnOk result (all.new ≡ all.old ++ flat_map pattern_names pats.now) }
{
    for each in pats {
        add_names(alloc, each, all)?;
    }
    Ok(())
}

fn first_name(alloc: Global, names: &[Name]) -> Result<Name, AllocError>
    ensures { IfOk result (λ n. n ≡ first_name names.now) }
{
    match names.first() {
        Some(name) => name.copied(alloc),
        None => Ok(Name::from_vec(Vec::new(alloc))),
    }
}

fn pattern_name(alloc: Global, pat: &Pat) -> Result<Name, AllocError>
    ensures { IfOk result (λ n. n ≡ first_name (pattern_names pat.now)) }
{
    let mut names = Items::new(alloc);
    add_names(alloc, pat, &mut names)?;
    first_name(alloc, names.as_slice())
}

fn declared_name(alloc: Global, decl: &Decl) -> Result<Name, AllocError>
    ensures { IfOk result (λ n. n ≡ declared_name decl.now) }
{
    match decl {
        Decl::DataDecl { occ, .. } => occ.copied(alloc),
        Decl::SynonymDecl { occ, .. } => occ.copied(alloc),
        Decl::TypeSig { occ, .. } => occ.copied(alloc),
        Decl::FixityOf { occ, .. } => occ.copied(alloc),
        Decl::Clause { occ, .. } => occ.copied(alloc),
        Decl::PatBind { pat, .. } => pattern_name(alloc, pat),
    }
}

fn add_fields(alloc: Global, fields: &[FieldDecl], all: &mut Writtens) -> Result<(), AllocError>
    ensures { OnOk result (all.new ≡ all.old ++ map (λ f. f.ty) fields.now) }
{
    for index in 0..fields.len() {
        all.push(fields[index].ty.copied(alloc)?)?;
    }
    Ok(())
}

fn add_cons(alloc: Global, cons: &[ConDecl], all: &mut Writtens) -> Result<(), AllocError>
    ensures { OnOk result (all.new ≡ all.old ++ written_fields cons.now) }
{
    for index in 0..cons.len() {
        add_fields(alloc, cons[index].fields.as_slice(), all)?;
    }
    Ok(())
}

// The types that a declaration writes.
fn types_said(alloc: Global, decl: &Decl) -> Result<Writtens, AllocError>
    ensures { IfOk result (λ ts. ts ≡ types_said decl.now) }
{
    let mut all = Items::new(alloc);
    match decl {
        Decl::DataDecl { cons, .. } => add_cons(alloc, cons.as_slice(), &mut all)?,
        Decl::SynonymDecl { body, .. } => all.push(body.copied(alloc)?)?,
        Decl::TypeSig { ty, .. } => all.push(ty.copied(alloc)?)?,
        Decl::FixityOf { .. } => {}
        Decl::Clause { .. } => add_types_of(alloc, decl, &mut all)?,
        Decl::PatBind { .. } => add_types_of(alloc, decl, &mut all)?,
    }
    Ok(all)
}

// The types that a declaration writes for values.
fn types_for_values(alloc: Global, decl: &Decl) -> Result<Writtens, AllocError>
    ensures { IfOk result (λ ts. ts ≡ types_in_decl decl.now) }
{
    let mut all = Items::new(alloc);
    add_types_of(alloc, decl, &mut all)?;
    Ok(all)
}

// Types under a name join the others.
fn add_uses(
    alloc: Global,
    name: &Name,
    types: &[Written],
    all: &mut TypeUses,
) -> Result<(), AllocError>
    ensures { OnOk result (all.new ≡ all.old ++ map (type_use name.now) types.now) }
{
    for index in 0..types.len() {
        all.push(TypeUse {
            name: name.copied(alloc)?,
            ty: types[index].copied(alloc)?,
        })?;
    }
    Ok(())
}

fn add_value_uses(alloc: Global, decl: &Decl, all: &mut TypeUses) -> Result<(), AllocError>
    ensures { OnOk result (all.new ≡ all.old ++ map (type_use (declared_name decl.now)) (types_in_decl decl.now)) }
{
    let types = types_for_values(alloc, decl)?;
    let name = declared_name(alloc, decl)?;
    add_uses(alloc, &name, types.as_slice(), all)
}

fn add_all_uses(alloc: Global, decl: &Decl, all: &mut TypeUses) -> Result<(), AllocError>
    ensures { OnOk result (all.new ≡ all.old ++ map (type_use (declared_name decl.now)) (types_said decl.now)) }
{
    let types = types_said(alloc, decl)?;
    let name = declared_name(alloc, decl)?;
    add_uses(alloc, &name, types.as_slice(), all)
}

/// The types that declarations write for values, in the order of the source: those of type signatures and
/// annotations, at the top and inside.
pub fn value_uses(alloc: Global, decls: &[Decl]) -> Result<TypeUses, AllocError>
    ensures { IfOk result (λ us. us ≡ value_uses decls.now) }
{
    let mut all = Items::new(alloc);
    for index in 0..decls.len() {
        add_value_uses(alloc, &decls[index], &mut all)?;
    }
    Ok(all)
}

/// All types that declarations write, in the order of the source: also those of fields, and the bodies of synonyms.
pub fn all_uses(alloc: Global, decls: &[Decl]) -> Result<TypeUses, AllocError>
    ensures { IfOk result (λ us. us ≡ all_uses decls.now) }
{
    let mut all = Items::new(alloc);
    for index in 0..decls.len() {
        add_all_uses(alloc, &decls[index], &mut all)?;
    }
    Ok(all)
}

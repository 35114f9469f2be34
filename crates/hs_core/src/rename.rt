//! Renaming: what happens to the names of a component's modules when its holes are filled (Yang's thesis, 2017). A name at a hole
//! becomes the name that the filling module exports for its space and occurrence, and in every other name the holes of its
//! identity are filled. `<Str>.Str` becomes `strs/Str.Chars.Str` where `Str` is filled by `strs/Str.Chars`, which exports a type
//! `Str`. A name at a hole of which nothing is shown stays as it is. Locals are never renamed.
ghost use Rattle.std.specs.Prelude.{◌≡◌, IfOk, map};
ghost use Rattle.std.specs.Option.{option_copied};
ghost use Rattle.hs_core.specs.Rename.{is_for, shown_for, renamed_name, renamed_ty, renamed_written, renamed_field, renamed_con, renamed_pat, composed_shown, composed_renaming};

use crate::{ConDecl, ConDecls, FieldDecl, FieldDecls, Pat, Pats, Written};
use bp_base::{Ident, Name, OrigName, Renaming, Shown, Showns, Space, Ty};
use sqlite_items::{Boxed, Items};
use std::alloc::{AllocError, Global};
use unit_identity::{compose, fill_unit};

/// Whether it says what the filler of the hole exports for the space and the occurrence.
fn is_shown_for(shown: &Shown, hole: &Name, space: Space, occ: &Name) -> bool
    ensures { result ≡ is_for hole.now space occ.now shown.now }
{
    shown.hole == *hole && shown.name.space == space && shown.name.occ == *occ
}

/// What the filler of the hole exports for the space and the occurrence.
fn find_shown<'a>(all: &'a [Shown], hole: &Name, space: Space, occ: &Name) -> Option<&'a OrigName>
    ensures { option_copied result ≡ shown_for hole.now space occ.now all.now }
{
    for each in all {
        if is_shown_for(each, hole, space, occ) {
            return Some(&each.name);
        }
    }
    None
}

/// The name after the renaming.
#[tactic(auto, using(crate::proofs::NameLemmas::name_equations))]
pub fn rename_name(alloc: Global, name: &OrigName, by: &Renaming) -> Result<OrigName, AllocError>
    ensures { IfOk result (λ r. r ≡ renamed_name name.now by.now) }
{
    match &name.at {
        Ident::Hole { name: hole } => {
            match find_shown(by.shown.as_slice(), hole, name.space, &name.occ) {
                Some(shown) => shown.copied(alloc),
                None => name.copied(alloc),
            }
        }
        Ident::Module { unit, module } => {
            let unit = fill_unit(alloc, unit.get(), &by.fills)?;
            Ok(OrigName {
                at: Ident::Module {
                    unit: Boxed::new(alloc, unit)?,
                    module: module.copied(alloc)?,
                },
                space: name.space,
                occ: name.occ.copied(alloc)?,
            })
        }
    }
}

/// The type with each name renamed. Kinds stay.
#[tactic(auto, using(crate::proofs::NameLemmas::type_equations))]
pub fn rename_ty(alloc: Global, ty: &Ty, by: &Renaming) -> Result<Ty, AllocError>
    ensures { IfOk result (λ r. r ≡ renamed_ty ty.now by.now) }
{
    match ty {
        Ty::Var { index } => Ok(Ty::Var { index: *index }),
        Ty::Con { name, kind } => Ok(Ty::Con {
            name: rename_name(alloc, name, by)?,
            kind: kind.copied(alloc)?,
        }),
        Ty::App { fun, arg } => {
            let fun = rename_ty(alloc, fun.get(), by)?;
            let arg = rename_ty(alloc, arg.get(), by)?;
            Ok(Ty::App {
                fun: Boxed::new(alloc, fun)?,
                arg: Boxed::new(alloc, arg)?,
            })
        }
    }
}

/// The written type with each name renamed. Variables stay.
#[tactic(auto, using(crate::proofs::NameLemmas::type_equations))]
pub fn rename_written(alloc: Global, ty: &Written, by: &Renaming) -> Result<Written, AllocError>
    ensures { IfOk result (λ r. r ≡ renamed_written ty.now by.now) }
{
    match ty {
        Written::WVar { name } => Ok(Written::WVar {
            name: name.copied(alloc)?,
        }),
        Written::WCon { name } => Ok(Written::WCon {
            name: rename_name(alloc, name, by)?,
        }),
        Written::WApp { fun, arg } => {
            let fun = rename_written(alloc, fun.get(), by)?;
            let arg = rename_written(alloc, arg.get(), by)?;
            Ok(Written::WApp {
                fun: Boxed::new(alloc, fun)?,
                arg: Boxed::new(alloc, arg)?,
            })
        }
    }
}

/// The field with each name renamed.
pub fn rename_field(
    alloc: Global,
    field: &FieldDecl,
    by: &Renaming,
) -> Result<FieldDecl, AllocError>
    ensures { IfOk result (λ r. r ≡ renamed_field field.now by.now) }
{
    Ok(FieldDecl {
        strict: field.strict,
        ty: rename_written(alloc, &field.ty, by)?,
    })
}

/// The fields with each name renamed.
pub fn rename_fields(
    alloc: Global,
    all: &FieldDecls,
    by: &Renaming,
) -> Result<FieldDecls, AllocError>
    ensures { IfOk result (λ r. r ≡ map (λ e. renamed_field e by.now) all.now) }
{
    let mut made = Items::new(alloc);
    for each in all.as_slice() {
        made.push(rename_field(alloc, each, by)?)?;
    }
    Ok(made)
}

/// The constructor with each name of its fields renamed.
pub fn rename_con(alloc: Global, con: &ConDecl, by: &Renaming) -> Result<ConDecl, AllocError>
    ensures { IfOk result (λ r. r ≡ renamed_con con.now by.now) }
{
    Ok(ConDecl {
        occ: con.occ.copied(alloc)?,
        fields: rename_fields(alloc, &con.fields, by)?,
    })
}

/// The constructors with each name of their fields renamed.
pub fn rename_cons(alloc: Global, all: &ConDecls, by: &Renaming) -> Result<ConDecls, AllocError>
    ensures { IfOk result (λ r. r ≡ map (λ e. renamed_con e by.now) all.now) }
{
    let mut made = Items::new(alloc);
    for each in all.as_slice() {
        made.push(rename_con(alloc, each, by)?)?;
    }
    Ok(made)
}

/// The pattern with each constructor renamed. The locals that it binds stay.
#[cycle(pat)]
#[tactic(auto, using(crate::proofs::PatternLemmas::pattern_equations))]
pub fn rename_pat(alloc: Global, pat: &Pat, by: &Renaming) -> Result<Pat, AllocError>
    ensures { IfOk result (λ r. r ≡ renamed_pat pat.now by.now) }
{
    match pat {
        Pat::PVar { name } => Ok(Pat::PVar {
            name: name.copied(alloc)?,
        }),
        Pat::PWild => Ok(Pat::PWild),
        Pat::PInt { negative, value } => Ok(Pat::PInt {
            negative: *negative,
            value: *value,
        }),
        Pat::PChr { code } => Ok(Pat::PChr { code: *code }),
        Pat::PStr { codes } => Ok(Pat::PStr {
            codes: Items::from_slice(alloc, codes.as_slice())?,
        }),
        Pat::PCon { name, args } => Ok(Pat::PCon {
            name: rename_name(alloc, name, by)?,
            args: rename_pats(alloc, args, by)?,
        }),
        Pat::PTuple { parts } => Ok(Pat::PTuple {
            parts: rename_pats(alloc, parts, by)?,
        }),
        Pat::PList { parts } => Ok(Pat::PList {
            parts: rename_pats(alloc, parts, by)?,
        }),
        Pat::PAs { name, pat } => {
            let pat = rename_pat(alloc, pat.get(), by)?;
            Ok(Pat::PAs {
                name: name.copied(alloc)?,
                pat: Boxed::new(alloc, pat)?,
            })
        }
        Pat::PLazy { pat } => {
            let pat = rename_pat(alloc, pat.get(), by)?;
            Ok(Pat::PLazy {
                pat: Boxed::new(alloc, pat)?,
            })
        }
    }
}

/// The patterns with each constructor renamed.
#[cycle(pat)]
pub fn rename_pats(alloc: Global, all: &Pats, by: &Renaming) -> Result<Pats, AllocError>
    ensures { IfOk result (λ r. r ≡ map (λ e. renamed_pat e by.now) all.now) }
{
    let mut made = Items::new(alloc);
    for each in all.as_slice() {
        made.push(rename_pat(alloc, each, by)?)?;
    }
    Ok(made)
}

fn rename_showns(alloc: Global, all: &Showns, by: &Renaming) -> Result<Showns, AllocError>
    ensures { IfOk result (λ r. r ≡ composed_shown all.now by.now) }
{
    let mut made = Items::new(alloc);
    for each in all.as_slice() {
        made.push(Shown {
            hole: each.hole.copied(alloc)?,
            name: rename_name(alloc, &each.name, by)?,
        })?;
    }
    Ok(made)
}

/// Renaming by `first` and then by `then`, where `first` fills and shows all that occurs.
pub fn compose_renamings(
    alloc: Global,
    first: &Renaming,
    then: &Renaming,
) -> Result<Renaming, AllocError>
    ensures { IfOk result (λ r. r ≡ composed_renaming first.now then.now) }
{
    Ok(Renaming {
        fills: compose(alloc, &first.fills, &then.fills)?,
        shown: rename_showns(alloc, &first.shown, then)?,
    })
}

//! Type declarations with their original names.
ghost use Rattle.std.specs.Prelude.{◌≡◌, ◌++◌, IfOk, OnOk};
ghost use Rattle.bp_base.specs.declared.ty.Space.TheVariants.{Types};
ghost use Rattle.hs_core.specs.WellTyped.{here, type_decl, type_decls, located};
ghost use Rattle.kind_check.specs.Scopes.{decls_of};

use bp_base::{Ident, Name, Names, OrigName, Space, copied_names};
use hs_core::{ConDecl, ConDecls, Decl, Written};
use kind_check::{GroupDecl, GroupDecls, Says};
use sqlite_items::Items;
use std::alloc::{AllocError, Global};

fn copied_cons(alloc: Global, cons: &[ConDecl]) -> Result<ConDecls, AllocError>
    ensures { IfOk result (λ r. r ≡ cons.now) }
{
    let mut all = Items::new(alloc);
    for each in cons {
        all.push(each.copied(alloc)?)?;
    }
    Ok(all)
}

fn type_named(alloc: Global, at: &Ident, occ: &Name) -> Result<OrigName, AllocError>
    ensures { IfOk result (λ n. n ≡ here at.now Types occ.now) }
{
    Ok(OrigName {
        at: at.copied(alloc)?,
        space: Space::Types,
        occ: occ.copied(alloc)?,
    })
}

fn data_decl(
    alloc: Global,
    at: &Ident,
    occ: &Name,
    params: &Names,
    cons: &[ConDecl],
) -> Result<GroupDecl, AllocError>
    ensures { IfOk result (λ d. d ≡ record { name = here at.now Types occ.now; params = params.now; says = Says.Fields cons.now }) }
{
    Ok(GroupDecl {
        name: type_named(alloc, at, occ)?,
        params: copied_names(alloc, params)?,
        says: Says::Fields {
            cons: copied_cons(alloc, cons)?,
        },
    })
}

fn synonym_decl(
    alloc: Global,
    at: &Ident,
    occ: &Name,
    params: &Names,
    body: &Written,
) -> Result<GroupDecl, AllocError>
    ensures { IfOk result (λ d. d ≡ record { name = here at.now Types occ.now; params = params.now; says = Says.Synonym body.now }) }
{
    Ok(GroupDecl {
        name: type_named(alloc, at, occ)?,
        params: copied_names(alloc, params)?,
        says: Says::Synonym {
            body: body.copied(alloc)?,
        },
    })
}

// A type declaration joins the others.
fn add_type_decl(
    alloc: Global,
    at: &Ident,
    decl: &Decl,
    all: &mut GroupDecls,
) -> Result<(), AllocError>
    ensures { OnOk result (decls_of all.new ≡ decls_of all.old ++ type_decl at.now decl.now) }
{
    match decl {
        Decl::DataDecl {
            occ,
            params,
            cons,
            ..
        } => all.push(data_decl(alloc, at, occ, params, cons.as_slice())?),
        Decl::SynonymDecl { occ, params, body } => {
            all.push(synonym_decl(alloc, at, occ, params, body)?)
        }
        Decl::TypeSig { .. } => Ok(()),
        Decl::FixityOf { .. } => Ok(()),
        Decl::Clause { .. } => Ok(()),
        Decl::PatBind { .. } => Ok(()),
    }
}

/// The type declarations of a module, in the order of the source.
pub fn type_decls(alloc: Global, at: &Ident, decls: &[Decl]) -> Result<GroupDecls, AllocError>
    ensures { IfOk result (λ ds. decls_of ds ≡ type_decls (located at.now decls.now)) }
{
    let mut all = Items::new(alloc);
    for index in 0..decls.len() {
        add_type_decl(alloc, at, &decls[index], &mut all)?;
    }
    Ok(all)
}

//! Kinds of declarations while kinds are unknown.
ghost use Rattle.std.specs.Prelude.{◌≡◌, ◌+◌, ◌≤◌, ◌<◌, ◌^◌, OnOk, IfOk, IfErr, map, flat_map};
ghost use Rattle.hs_core.specs.Types.{count};
ghost use Rattle.hs_core.specs.WellTyped.{field_terms};
ghost use Rattle.kind_check.specs.Forms.{AreReady};
ghost use Rattle.kind_check.specs.Scopes.{field_term, decls_of, decl_of, names_under, variables_under};
ghost use Rattle.kind_check.specs.Walks.{Imposes, NoGuess, stars, head, keeps};

use crate::scope::{GroupDecl, Known, Says};
use crate::state::{Failure, equate};
use crate::walk::{fresh, walk};
use bp_base::Name;
use hs_core::{ConDecl, FieldDecl};
use std::alloc::{AllocError, Global};
use type_unify::{Bindings, Term};

/// The kind of a type constructor, with unknowns for so many parameters from one on.
pub fn head_of(alloc: Global, first: u64, many: u64, end: Term) -> Result<Term, AllocError>
    requires { first + many < 2 ^ 64 }
    ensures { IfOk result (λ t. t ≡ head first many end) }
{
    let mut kind = end;
    let mut left = many;
    'parameters: while left > 0 {
        left -= 1;
        let parameter = Term::flex(alloc, first + left)?;
        kind = Term::app(parameter, kind)?;
    }
    Ok(kind)
}

/// Makes each field of a constructor have kind `*`.
pub fn all_star(
    alloc: Global,
    types: &[FieldDecl],
    known: &[Known],
    decls: &[GroupDecl],
    params: &[Name],
    first: u64,
    bindings: &mut Bindings,
    next: &mut u64,
) -> Result<(), Failure>
    requires ready { AreReady bindings.old next.old }
    requires group { count (decls_of decls.now) ≤ next.old }
    requires params { first + count params.now ≤ next.old }
    ensures ok { OnOk result (Imposes (stars (names_under known.now decls.now) (variables_under first (count params.now)) (map (field_term params.now) types.now)) bindings.old bindings.new next.old next.new) }
    ensures none { IfErr result (λ e. e ≡ Failure.NoKind → NoGuess (stars (names_under known.now decls.now) (variables_under first (count params.now)) (map (field_term params.now) types.now)) bindings.old) }
{
    for index in 0..types.len() {
        let star = Term::rigid(alloc, 0)?;
        walk(
            alloc,
            &types[index].ty,
            known,
            decls,
            params,
            first,
            bindings,
            next,
            star,
        )?;
    }
    Ok(())
}

/// Makes each field of each constructor have kind `*`.
pub fn all_fields_star(
    alloc: Global,
    cons: &[ConDecl],
    known: &[Known],
    decls: &[GroupDecl],
    params: &[Name],
    first: u64,
    bindings: &mut Bindings,
    next: &mut u64,
) -> Result<(), Failure>
    requires ready { AreReady bindings.old next.old }
    requires group { count (decls_of decls.now) ≤ next.old }
    requires params { first + count params.now ≤ next.old }
    ensures ok { OnOk result (Imposes (stars (names_under known.now decls.now) (variables_under first (count params.now)) (flat_map (field_terms params.now) cons.now)) bindings.old bindings.new next.old next.new) }
    ensures none { IfErr result (λ e. e ≡ Failure.NoKind → NoGuess (stars (names_under known.now decls.now) (variables_under first (count params.now)) (flat_map (field_terms params.now) cons.now)) bindings.old) }
{
    for index in 0..cons.len() {
        all_star(
            alloc,
            cons[index].fields.as_slice(),
            known,
            decls,
            params,
            first,
            bindings,
            next,
        )?;
    }
    Ok(())
}

/// Makes a declaration keep to the kind of its unknown: that of its place in the group.
pub fn declare(
    alloc: Global,
    decl: &GroupDecl,
    known: &[Known],
    decls: &[GroupDecl],
    index: u64,
    bindings: &mut Bindings,
    next: &mut u64,
) -> Result<(), Failure>
    requires ready { AreReady bindings.old next.old }
    requires group { count (decls_of decls.now) ≤ next.old }
    requires index { index < next.old }
    ensures ok { OnOk result (Imposes (keeps (names_under known.now decls.now) (decl_of decl.now) index) bindings.old bindings.new next.old next.new) }
    ensures none { IfErr result (λ e. e ≡ Failure.NoKind → NoGuess (keeps (names_under known.now decls.now) (decl_of decl.now) index) bindings.old) }
{
    let params = decl.params.as_slice();
    let many = params.len() as u64;
    let own = Term::flex(alloc, index)?;
    match &decl.says {
        Says::Fields { cons } => {
            let first = fresh(next, many)?;
            let end = Term::rigid(alloc, 0)?;
            let head = head_of(alloc, first, many, end)?;
            equate(alloc, bindings, *next, &own, &head)?;
            all_fields_star(
                alloc,
                cons.as_slice(),
                known,
                decls,
                params,
                first,
                bindings,
                next,
            )
        }
        Says::Synonym { body } => {
            let id = fresh(next, 1)?;
            let first = fresh(next, many)?;
            let end = Term::flex(alloc, id)?;
            let wanted = Term::flex(alloc, id)?;
            let head = head_of(alloc, first, many, end)?;
            equate(alloc, bindings, *next, &own, &head)?;
            walk(
                alloc, body, known, decls, params, first, bindings, next, wanted,
            )
        }
    }
}

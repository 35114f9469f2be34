//! Declared types at new unknowns.
ghost use Rattle.std.specs.Prelude.{◌≡◌, ◌++◌, length, map, replicate, IfOk, OnOk, IfErr};
ghost use Rattle.std.specs.List.{range_with_len};
ghost use Rattle.bp_base.specs.declared.ty.Kind.TheVariants.{Star};
ghost use Rattle.hs_core.specs.Types.{kind_term};
ghost use Rattle.kind_check.specs.Forms.{code};
ghost use Rattle.infer_patterns.specs.Names.{noted_kind, argument_kind, instance};

use crate::names::Declared;
use bp_base::{Kind, Ty};
use std::alloc::{AllocError, Global};
use type_equations::{Equations, Failure};
use type_unify::Term;

// The kind as a type of unification.
fn term_of_kind(alloc: Global, kind: &Kind) -> Result<Term, AllocError>
    ensures { IfOk result (λ t. t ≡ code (kind_term kind.now)) }
{
    match kind {
        Kind::Star => Term::rigid(alloc, 0),
        Kind::Arrow { from, to } => {
            let from = term_of_kind(alloc, from.get())?;
            let to = term_of_kind(alloc, to.get())?;
            Term::app(from, to)
        }
    }
}

// The kind of the argument that a type of this kind takes, as a type of unification.
fn argument_code(alloc: Global, kind: &Kind) -> Result<Term, AllocError>
    ensures { IfOk result (λ t. t ≡ code (argument_kind (kind_term kind.now))) }
{
    match kind {
        Kind::Star => Term::rigid(alloc, 0),
        Kind::Arrow { from, .. } => term_of_kind(alloc, from.get()),
    }
}

// The kind of a type, by the kinds of its variables and those noted at its names.
fn kind_of(alloc: Global, ty: &Ty, kinds: &[Kind]) -> Result<Kind, AllocError>
    ensures { IfOk result (λ k. kind_term k ≡ noted_kind (map kind_term kinds.now) ty.now) }
{
    match ty {
        Ty::Var { index } => {
            if *index < kinds.len() as u64 {
                kinds[*index as usize].copied(alloc)
            } else {
                Ok(Kind::Star)
            }
        }
        Ty::Con { kind, .. } => kind.copied(alloc),
        Ty::App { fun, .. } => match kind_of(alloc, fun.get(), kinds)? {
            Kind::Star => Ok(Kind::Star),
            Kind::Arrow { to, .. } => to.get().copied(alloc),
        },
    }
}

// A type with unknowns for its variables, from one on.
fn term_of(alloc: Global, ty: &Ty, kinds: &[Kind], first: u64) -> Result<Term, Failure>
    ensures ok { IfOk result (λ t. t ≡ instance (map kind_term kinds.now) first ty.now) }
    ensures err { IfErr result (λ e. e ≡ Failure.NoMemory) }
{
    match ty {
        Ty::Var { index } => match first.checked_add(*index) {
            Some(id) => Ok(Term::flex(alloc, id)?),
            None => Err(Failure::NoMemory),
        },
        Ty::Con { name, kind } => Ok(Term::con(alloc, name.copied(alloc)?, kind.copied(alloc)?)?),
        Ty::App { fun, arg } => {
            let kind = kind_of(alloc, fun.get(), kinds)?;
            let at = argument_code(alloc, &kind)?;
            let fun = term_of(alloc, fun.get(), kinds, first)?;
            let arg = term_of(alloc, arg.get(), kinds, first)?;
            Ok(Term::app(Term::app(at, fun)?, arg)?)
        }
    }
}

// New unknowns of these kinds.
fn add_kinds(alloc: Global, kinds: &[Kind], state: &mut Equations) -> Result<(), AllocError>
    ensures kinds { OnOk result (state.new.kinds.items ≡ state.old.kinds.items ++ kinds.now) }
    ensures same { state.new.bindings ≡ state.old.bindings }
{
    for kind in kinds {
        state.fresh(kind.copied(alloc)?)?;
    }
    Ok(())
}

/// A declared type with new unknowns for its variables, and behind them so many new unknowns of kind `*`.
pub fn instance_with(
    alloc: Global,
    declared: &Declared,
    many: usize,
    state: &mut Equations,
) -> Result<(Term, Vec<u64>), Failure>
    ensures own { IfOk result (λ r. r.0 ≡ instance (map kind_term declared.now.kinds.items) (length state.old.kinds.items) declared.now.ty) }
    ensures parts { IfOk result (λ r. r.1.items ≡ range_with_len (length (state.old.kinds.items ++ declared.now.kinds.items)) many) }
    ensures kinds { OnOk result (state.new.kinds.items ≡ (state.old.kinds.items ++ declared.now.kinds.items) ++ replicate many Star) }
    ensures same { state.new.bindings ≡ state.old.bindings }
    ensures err { IfErr result (λ e. e ≡ Failure.NoMemory) }
{
    let first = state.kinds.len() as u64;
    let own = term_of(alloc, &declared.ty, declared.kinds.as_slice(), first)?;
    add_kinds(alloc, declared.kinds.as_slice(), state)?;
    let parts = state.stars(alloc, many)?;
    Ok((own, parts))
}

//! Types of patterns (Haskell 2010 Report, section 3.17).
ghost use Rattle.std.specs.Prelude.{◌≡◌, ◌++◌, ◌∷◌, [], length, replicate, IfOk, OnOk, IfErr};
ghost use Rattle.std.specs.List.{range_with_len};
ghost use Rattle.type_equations.specs.States.{state_of};
ghost use Rattle.infer_patterns.specs.Patterns.{PatternInferred, PatternRefused, PatternsInferred, PatternsRefused, LiteralEntered, LiteralRefused, TupleEntered, TupleRefused, ListEntered, ListRefused, ConEntered, ConRefused};
ghost use Rattle.type_equations.specs.Syntax.{plain_integer, plain_character, plain_list};

use crate::instance::instance_with;
use crate::names::{Declared, find};
use bp_base::{Kind, Name, OrigName};
use hs_core::Pat;
use std::alloc::{AllocError, Global};
use type_equations::{
    Binder, Equations, Failure, character, functions, integer, list_of, tuple_of,
};
use type_unify::Term;

// The name is bound to the unknown.
fn bind(
    alloc: Global,
    name: &Name,
    unknown: u64,
    binders: &mut Vec<Binder>,
) -> Result<(), AllocError>
    ensures { OnOk result (binders.new.items ≡ binders.old.items ++ record { name = name.now; unknown = unknown } ∷ []) }
{
    binders.push(Binder {
        name: name.copied(alloc)?,
        unknown,
    })?;
    Ok(())
}

/// Makes the unknown `wanted` have the type of a literal. NoTyping comes exactly where it can't.
pub fn enter_literal(
    alloc: Global,
    ty: Term,
    wanted: u64,
    state: &mut Equations,
) -> Result<(), Failure>
    ensures ok { OnOk result (LiteralEntered (state_of state.old) (state_of state.new) wanted ty) }
    ensures none { IfErr result (λ e. e ≡ Failure.NoTyping → LiteralRefused (state_of state.old) wanted ty) }
{
    let own = Term::flex(alloc, wanted)?;
    state.equate(alloc, &own, &ty)
}

/// `[Char]`
pub fn string(alloc: Global) -> Result<Term, AllocError>
    ensures { IfOk result (λ t. t ≡ plain_list plain_character) }
{
    let item = character(alloc)?;
    list_of(alloc, item)
}

/// Makes the unknown `wanted` a tuple of so many new ones, which it returns. NoTyping comes exactly where it can't.
pub fn enter_tuple(
    alloc: Global,
    many: usize,
    wanted: u64,
    state: &mut Equations,
) -> Result<Vec<u64>, Failure>
    ensures ids { IfOk result (λ ids. ids.items ≡ range_with_len (length state.old.kinds.items) many) }
    ensures many { IfOk result (λ ids. length ids.items ≡ many) }
    ensures ok { OnOk result (TupleEntered (state_of state.old) (state_of state.new) wanted many) }
    ensures none { IfErr result (λ e. e ≡ Failure.NoTyping → TupleRefused (state_of state.old) wanted many) }
{
    if many > 15 || many == 1 {
        return Err(Failure::NoTyping);
    }
    let parts = state.stars(alloc, many)?;
    let own = Term::flex(alloc, wanted)?;
    let ty = tuple_of(alloc, parts.as_slice())?;
    state.equate(alloc, &own, &ty)?;
    Ok(parts)
}

// So many times the same number.
fn repeated(alloc: Global, id: u64, many: usize) -> Result<Vec<u64>, AllocError>
    ensures { IfOk result (λ ids. ids.items ≡ replicate many id) }
{
    let mut ids = Vec::with_capacity(alloc, many)?;
    for _index in 0..many {
        ids.push(id)?;
    }
    Ok(ids)
}

/// Makes the unknown `wanted` a list of a new one, which it returns as often as there are items. NoTyping comes exactly
/// where it can't.
pub fn enter_list(
    alloc: Global,
    many: usize,
    wanted: u64,
    state: &mut Equations,
) -> Result<Vec<u64>, Failure>
    ensures ids { IfOk result (λ ids. ids.items ≡ replicate many (length state.old.kinds.items)) }
    ensures ok { OnOk result (ListEntered (state_of state.old) (state_of state.new) wanted) }
    ensures none { IfErr result (λ e. e ≡ Failure.NoTyping → ListRefused (state_of state.old) wanted) }
{
    let item = state.fresh(Kind::Star)?;
    let own = Term::flex(alloc, wanted)?;
    let ty = list_of(alloc, Term::flex(alloc, item)?)?;
    state.equate(alloc, &own, &ty)?;
    let ids = repeated(alloc, item, many)?;
    Ok(ids)
}

// New unknowns for the arguments of a constructor.
fn enter_con(
    alloc: Global,
    name: &OrigName,
    many: usize,
    wanted: u64,
    names: &[Declared],
    state: &mut Equations,
) -> Result<Vec<u64>, Failure>
    ensures ok { IfOk result (λ ids. ConEntered names.now (state_of state.old) (state_of state.new) name.now wanted many ids.items) }
    ensures many { IfOk result (λ ids. length ids.items ≡ many) }
    ensures none { IfErr result (λ e. e ≡ Failure.NoTyping → ConRefused names.now (state_of state.old) name.now wanted many) }
{
    let Some(declared) = find(names, name) else {
        return Err(Failure::NoTyping);
    };
    let Some(fields) = declared.fields else {
        return Err(Failure::NoTyping);
    };
    if fields != many {
        return Err(Failure::NoTyping);
    }
    let (own, parts) = instance_with(alloc, declared, many, state)?;
    let result = Term::flex(alloc, wanted)?;
    let ty = functions(alloc, parts.as_slice(), result)?;
    state.equate(alloc, &own, &ty)?;
    Ok(parts)
}

/// Makes a pattern have the type of the unknown `wanted`: the names that it binds are pushed with the unknowns of their
/// types, in order. NoTyping comes exactly where no guess that meets the equations gives the pattern that type.
/// Recursion goes no deeper than the pattern.
#[cycle(pat)]
pub fn infer_pat(
    alloc: Global,
    pat: &Pat,
    wanted: u64,
    names: &[Declared],
    state: &mut Equations,
    binders: &mut Vec<Binder>,
) -> Result<(), Failure>
    ensures ok { OnOk result (PatternInferred names.now binders.old.items binders.new.items (state_of state.old) (state_of state.new) pat.now wanted) }
    ensures none { IfErr result (λ e. e ≡ Failure.NoTyping → PatternRefused names.now (state_of state.old) pat.now wanted) }
{
    match pat {
        Pat::PVar { name } => {
            bind(alloc, name, wanted, binders)?;
            Ok(())
        }
        Pat::PWild => Ok(()),
        Pat::PInt { .. } => {
            let ty = integer(alloc)?;
            enter_literal(alloc, ty, wanted, state)
        }
        Pat::PChr { .. } => {
            let ty = character(alloc)?;
            enter_literal(alloc, ty, wanted, state)
        }
        Pat::PStr { .. } => {
            let ty = string(alloc)?;
            enter_literal(alloc, ty, wanted, state)
        }
        Pat::PCon { name, args } => {
            let parts = enter_con(alloc, name, args.len(), wanted, names, state)?;
            infer_pats(
                alloc,
                args.as_slice(),
                parts.as_slice(),
                names,
                state,
                binders,
            )
        }
        Pat::PTuple { parts } => {
            let ids = enter_tuple(alloc, parts.len(), wanted, state)?;
            infer_pats(
                alloc,
                parts.as_slice(),
                ids.as_slice(),
                names,
                state,
                binders,
            )
        }
        Pat::PList { parts } => {
            let ids = enter_list(alloc, parts.len(), wanted, state)?;
            infer_pats(
                alloc,
                parts.as_slice(),
                ids.as_slice(),
                names,
                state,
                binders,
            )
        }
        Pat::PAs { name, pat } => {
            bind(alloc, name, wanted, binders)?;
            infer_pat(alloc, pat.get(), wanted, names, state, binders)
        }
        Pat::PLazy { pat } => infer_pat(alloc, pat.get(), wanted, names, state, binders),
    }
}

/// Patterns in a row, each at the type of its unknown.
#[cycle(pat)]
pub fn infer_pats(
    alloc: Global,
    pats: &[Pat],
    wanted: &[u64],
    names: &[Declared],
    state: &mut Equations,
    binders: &mut Vec<Binder>,
) -> Result<(), Failure>
    requires { length pats.now ≡ length wanted.now }
    ensures ok { OnOk result (PatternsInferred names.now binders.old.items binders.new.items (state_of state.old) (state_of state.new) pats.now wanted.now) }
    ensures none { IfErr result (λ e. e ≡ Failure.NoTyping → PatternsRefused names.now (state_of state.old) pats.now wanted.now) }
{
    for index in 0..pats.len() {
        infer_pat(alloc, &pats[index], wanted[index], names, state, binders)?;
    }
    Ok(())
}

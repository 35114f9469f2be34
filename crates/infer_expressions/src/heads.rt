//! The heads of expressions: new unknowns for their parts, and equations between them.
ghost use Rattle.std.specs.Prelude.{◌≡◌, ◌+◌, ◌++◌, ◌∷◌, [], length, replicate, IfOk, OnOk, IfErr};
ghost use Rattle.std.specs.List.{range_with_len};
ghost use Rattle.bp_base.specs.declared.ty.Kind.TheVariants.{Star};
ghost use Rattle.hs_core.specs.declared.tree.Exp.TheVariants.{Local, Global as GlobalName};
ghost use Rattle.type_equations.specs.States.{state_of};
ghost use Rattle.infer_expressions.specs.Inferred.{ExpInferred, ExpRefused, PatternSeen};
ghost use Rattle.infer_patterns.specs.Patterns.{PatternRefused};
ghost use Rattle.infer_expressions.specs.Entered.{ApplicationEntered, ApplicationRefused, FunctionEntered, FunctionRefused, TestEntered, TestRefused, SectionEntered, SectionRefused, LambdaEntered, LambdaRefused};

use crate::scope::{find_local, scope_of};
use bp_base::{Kind, Name, OrigName};
use hs_core::Pat;
use infer_patterns::{Declared, find, infer_pat, infer_pats, instance_with};
use std::alloc::{AllocError, Global};
use type_equations::{Binder, Equations, Failure, boolean, function, functions};
use type_unify::Term;

// A local has the type of its unknown.
pub(crate) fn enter_local(
    alloc: Global,
    name: &Name,
    wanted: u64,
    env: &[Binder],
    names: &[Declared],
    state: &mut Equations,
) -> Result<(), Failure>
    ensures ok { OnOk result (ExpInferred names.now env.now (state_of state.old) (state_of state.new) (Local name.now) wanted) }
    ensures none { IfErr result (λ e. e ≡ Failure.NoTyping → ExpRefused names.now env.now (state_of state.old) (Local name.now) wanted) }
{
    let Some(unknown) = find_local(env, name) else {
        return Err(Failure::NoTyping);
    };
    let own = Term::flex(alloc, wanted)?;
    let ty = Term::flex(alloc, unknown)?;
    state.equate(alloc, &own, &ty)
}

// A name of a module has an instance of its declared type.
pub(crate) fn enter_global(
    alloc: Global,
    name: &OrigName,
    wanted: u64,
    env: &[Binder],
    names: &[Declared],
    state: &mut Equations,
) -> Result<(), Failure>
    ensures ok { OnOk result (ExpInferred names.now env.now (state_of state.old) (state_of state.new) (GlobalName name.now) wanted) }
    ensures none { IfErr result (λ e. e ≡ Failure.NoTyping → ExpRefused names.now env.now (state_of state.old) (GlobalName name.now) wanted) }
{
    let Some(declared) = find(names, name) else {
        return Err(Failure::NoTyping);
    };
    let (own, _parts) = instance_with(alloc, declared, 0, state)?;
    let ty = Term::flex(alloc, wanted)?;
    state.equate(alloc, &own, &ty)
}

// A new unknown, and others for what a function takes.
fn function_unknowns(
    alloc: Global,
    many: usize,
    state: &mut Equations,
) -> Result<(u64, Vec<u64>), AllocError>
    ensures own { IfOk result (λ r. r.0 ≡ length state.old.kinds.items) }
    ensures parts { IfOk result (λ r. r.1.items ≡ range_with_len (length state.old.kinds.items + 1) many) }
    ensures kinds { OnOk result (state.new.kinds.items ≡ state.old.kinds.items ++ Star ∷ replicate many Star) }
    ensures same { state.new.bindings ≡ state.old.bindings }
{
    let own = state.fresh(Kind::Star)?;
    let parts = state.stars(alloc, many)?;
    Ok((own, parts))
}

// A function at a new unknown, which leads from others to the wanted type.
pub(crate) fn enter_application(
    alloc: Global,
    many: usize,
    wanted: u64,
    state: &mut Equations,
) -> Result<(u64, Vec<u64>), Failure>
    ensures own { IfOk result (λ r. r.0 ≡ length state.old.kinds.items) }
    ensures parts { IfOk result (λ r. r.1.items ≡ range_with_len (length state.old.kinds.items + 1) many) }
    ensures many { IfOk result (λ r. length r.1.items ≡ many) }
    ensures ok { OnOk result (ApplicationEntered (state_of state.old) (state_of state.new) wanted many) }
    ensures none { IfErr result (λ e. e ≡ Failure.NoTyping → ApplicationRefused (state_of state.old) wanted many) }
{
    let (own, parts) = function_unknowns(alloc, many, state)?;
    let front = Term::flex(alloc, own)?;
    let result = Term::flex(alloc, wanted)?;
    let ty = functions(alloc, parts.as_slice(), result)?;
    state.equate(alloc, &front, &ty)?;
    Ok((own, parts))
}

/// Makes the unknown `wanted` a function from so many new unknowns to one, which it returns in front of them. NoTyping
/// comes exactly where it can't.
pub fn enter_function(
    alloc: Global,
    many: usize,
    wanted: u64,
    state: &mut Equations,
) -> Result<(u64, Vec<u64>), Failure>
    ensures own { IfOk result (λ r. r.0 ≡ length state.old.kinds.items) }
    ensures parts { IfOk result (λ r. r.1.items ≡ range_with_len (length state.old.kinds.items + 1) many) }
    ensures many { IfOk result (λ r. length r.1.items ≡ many) }
    ensures ok { OnOk result (FunctionEntered (state_of state.old) (state_of state.new) wanted many) }
    ensures none { IfErr result (λ e. e ≡ Failure.NoTyping → FunctionRefused (state_of state.old) wanted many) }
{
    let (own, parts) = function_unknowns(alloc, many, state)?;
    let front = Term::flex(alloc, wanted)?;
    let result = Term::flex(alloc, own)?;
    let ty = functions(alloc, parts.as_slice(), result)?;
    state.equate(alloc, &front, &ty)?;
    Ok((own, parts))
}

// The patterns of a lambda, the unknown of its body and the locals that the body sees.
pub(crate) fn enter_lambda(
    alloc: Global,
    pats: &[Pat],
    wanted: u64,
    env: &[Binder],
    names: &[Declared],
    state: &mut Equations,
) -> Result<(u64, Vec<Binder>), Failure>
    ensures ok { IfOk result (λ r. LambdaEntered names.now env.now (state_of state.old) (state_of state.new) pats.now wanted r.0 r.1.items) }
    ensures none { IfErr result (λ e. e ≡ Failure.NoTyping → LambdaRefused names.now env.now (state_of state.old) pats.now wanted) }
{
    let (own, parts) = enter_function(alloc, pats.len(), wanted, state)?;
    let mut binders = Vec::new(alloc);
    infer_pats(alloc, pats, parts.as_slice(), names, state, &mut binders)?;
    let scope = scope_of(alloc, binders, env)?;
    Ok((own, scope))
}

// A pattern, and the locals that are seen behind it.
pub(crate) fn enter_pattern(
    alloc: Global,
    pat: &Pat,
    of: u64,
    env: &[Binder],
    names: &[Declared],
    state: &mut Equations,
) -> Result<Vec<Binder>, Failure>
    ensures ok { IfOk result (λ r. PatternSeen names.now env.now r.items (state_of state.old) (state_of state.new) pat.now of) }
    ensures none { IfErr result (λ e. e ≡ Failure.NoTyping → PatternRefused names.now (state_of state.old) pat.now of) }
{
    let mut binders = Vec::new(alloc);
    infer_pat(alloc, pat, of, names, state, &mut binders)?;
    let scope = scope_of(alloc, binders, env)?;
    Ok(scope)
}

// A test at a new unknown, which is `Bool`.
pub(crate) fn enter_test(alloc: Global, state: &mut Equations) -> Result<u64, Failure>
    ensures own { IfOk result (λ own. own ≡ length state.old.kinds.items) }
    ensures ok { OnOk result (TestEntered (state_of state.old) (state_of state.new)) }
    ensures none { IfErr result (λ e. e ≡ Failure.NoTyping → TestRefused (state_of state.old)) }
{
    let own = state.fresh(Kind::Star)?;
    let front = Term::flex(alloc, own)?;
    let ty = boolean(alloc)?;
    state.equate(alloc, &front, &ty)?;
    Ok(own)
}

// New unknowns for a left operand, a right operand, a result and the operator that takes one to the other.
fn section_unknowns(state: &mut Equations) -> Result<(u64, u64, u64, u64), AllocError>
    ensures left { IfOk result (λ r. r.0 ≡ length state.old.kinds.items) }
    ensures right { IfOk result (λ r. r.1 ≡ length state.old.kinds.items + 1) }
    ensures outcome { IfOk result (λ r. r.2 ≡ length state.old.kinds.items + 1 + 1) }
    ensures own { IfOk result (λ r. r.3 ≡ length state.old.kinds.items + 1 + 1 + 1) }
    ensures kinds { OnOk result (state.new.kinds.items ≡ state.old.kinds.items ++ Star ∷ Star ∷ Star ∷ Star ∷ []) }
    ensures same { state.new.bindings ≡ state.old.bindings }
{
    let left = state.fresh(Kind::Star)?;
    let right = state.fresh(Kind::Star)?;
    let outcome = state.fresh(Kind::Star)?;
    let own = state.fresh(Kind::Star)?;
    Ok((left, right, outcome, own))
}

// The unknowns of the operator and of the right operand of a right section.
pub(crate) fn enter_section(
    alloc: Global,
    wanted: u64,
    state: &mut Equations,
) -> Result<(u64, u64), Failure>
    ensures own { IfOk result (λ r. r.0 ≡ length state.old.kinds.items + 1 + 1 + 1) }
    ensures right { IfOk result (λ r. r.1 ≡ length state.old.kinds.items + 1) }
    ensures ok { OnOk result (SectionEntered (state_of state.old) (state_of state.new) wanted) }
    ensures none { IfErr result (λ e. e ≡ Failure.NoTyping → SectionRefused (state_of state.old) wanted) }
{
    let (left, right, outcome, own) = section_unknowns(state)?;
    let whole = Term::flex(alloc, wanted)?;
    let from = Term::flex(alloc, left)?;
    let to = Term::flex(alloc, outcome)?;
    let ty = function(alloc, from, to)?;
    state.equate(alloc, &whole, &ty)?;
    let front = Term::flex(alloc, own)?;
    let ends = Term::flex(alloc, outcome)?;
    let second = Term::flex(alloc, right)?;
    let rest = function(alloc, second, ends)?;
    let first = Term::flex(alloc, left)?;
    let operator = function(alloc, first, rest)?;
    state.equate(alloc, &front, &operator)?;
    Ok((own, right))
}
